// The clause of some edges, as a record: a constant false leaves it, a constant true drops it.
ghost use Rattle.std.specs.Prelude.{◌≡◌, ◌<◌, ◌≤◌, length, map};
ghost use Rattle.std.specs.List.{All, count_by, list_any};
ghost use Rattle.meaning.specs.Built.{clause_if};
ghost use Rattle.meaning.specs.Filed.{clause_records};
ghost use Rattle.clause_count.specs.Lengths.{is_true};
ghost use Rattle.built.specs.Edges.{edge_of, variable_of, is_named};
ghost use Rattle.built.specs.Clause.{edge_bytes};
ghost use Rattle.records.specs.Puts.{Puts, HasRoom};

use crate::edge::Edge;
use records::Records;

// How many of them are literals.
fn named(edges: &[Edge]) -> usize
    ensures { result ≡ count_by is_named edges.now }
{
    edges.iter().filter(|e| e.is_named()).count()
}

// One of them is constantly true.
fn has_true(edges: &[Edge]) -> bool
    ensures { result ≡ list_any (λ e. is_true (edge_of e)) edges.now }
{
    edges.iter().any(|e| e.is_true())
}

// Writes the literal of an edge, if it is one.
fn put_edge(out: &mut Records<'_>, e: Edge)
    requires variable_bound { variable_of e ≤ 32767 }
    requires e_in_bounds { HasRoom (edge_bytes (edge_of e)) out.old }
    ensures { Puts (edge_bytes (edge_of e)) out.old out.new }
{
    match e {
        Edge::Constant(_) => {}
        Edge::Named(l) => out.put_literal(l.negative, l.variable),
    }
}

// Writes the clause of up to three edges, if there is one.
// A kind is a number, and no enum: it is the one that the record has in the file, which `clause_records kind` of meaning fixes.
pub fn put_clause(out: &mut Records<'_>, kind: usize, edges: &[Edge])
    requires kind_bound { kind < 65536 }
    requires edges_bound { length edges.now ≤ 3 }
    requires variable_bound { All (λ e. variable_of e ≤ 32767) edges.now }
    requires edges_in_bounds { HasRoom (clause_records kind (clause_if (map edge_of edges.now))) out.old }
    ensures { Puts (clause_records kind (clause_if (map edge_of edges.now))) out.old out.new }
{
    if has_true(edges) {
        return;
    }
    out.put_head(2 * named(edges), kind);
    for e in edges {
        put_edge(out, *e);
    }
}
