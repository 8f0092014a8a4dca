// The clauses of the gates.
ghost use Rattle.std.specs.Prelude.{◌<◌, ◌≤◌};
ghost use Rattle.meaning.specs.Built.{and_clauses, gates_clauses};
ghost use Rattle.meaning.specs.CircuitText.{numbers_at};
ghost use Rattle.meaning.specs.Filed.{clause_records};
ghost use Rattle.sections.specs.Whole.{circuit_at};
ghost use Rattle.clause_count.specs.Rows.{RowAt};
ghost use Rattle.built.specs.Edges.{edge_of, variable_of, Small};
ghost use Rattle.built.specs.Sections.{gate_clauses};
ghost use Rattle.records.specs.Puts.{Puts, HasRoom};

use crate::clause::put_clause;
use crate::edge::{Edge, edge_at};
use crate::walk::put_lines;
use records::Records;
use sections::circuit::Circuit;

// The three clauses that make g the conjunction of a and b.
fn put_and(out: &mut Records<'_>, kind: usize, g: Edge, a: Edge, b: Edge)
    requires kind_bound { kind < 65536 }
    requires variable_bound { variable_of g ≤ 32767 }
    requires variable_bound_2 { variable_of a ≤ 32767 }
    requires variable_bound_3 { variable_of b ≤ 32767 }
    requires b_in_bounds { HasRoom (clause_records kind (and_clauses (edge_of g) (edge_of a) (edge_of b))) out.old }
    ensures { Puts (clause_records kind (and_clauses (edge_of g) (edge_of a) (edge_of b))) out.old out.new }
{
    let not_g = g.opposite();
    let not_a = a.opposite();
    let not_b = b.opposite();
    put_clause(out, kind, &[a, not_g]);
    put_clause(out, kind, &[b, not_g]);
    put_clause(out, kind, &[g, not_a, not_b]);
}

// The clauses of the gate on a line.
fn put_gate(text: &[u8], c: Circuit, line: usize, out: &mut Records<'_>, kind: usize)
    requires small { Small text.now c }
    requires row_at { RowAt text.now 3 line }
    requires kind_bound { kind < 65536 }
    requires line_in_bounds { HasRoom (clause_records kind (gate_clauses (circuit_at text.now c) (numbers_at text.now line))) out.old }
    ensures { Puts (clause_records kind (gate_clauses (circuit_at text.now c) (numbers_at text.now line))) out.old out.new }
{
    let g = edge_at(text, c, line, 0);
    let a = edge_at(text, c, line, 1);
    let b = edge_at(text, c, line, 2);
    put_and(out, kind, g, a, b);
}

// The clauses of all gates, by line order, as records of a kind.
pub fn put_gates(text: &[u8], c: Circuit, out: &mut Records<'_>, kind: usize)
    requires small { Small text.now c }
    requires kind_bound { kind < 65536 }
    requires c_in_bounds { HasRoom (clause_records kind (gates_clauses (circuit_at text.now c) (circuit_at text.now c).gates)) out.old }
    ensures { Puts (clause_records kind (gates_clauses (circuit_at text.now c) (circuit_at text.now c).gates)) out.old out.new }
{
    put_lines(
        text,
        c.gates,
        out,
        |line, _, out| put_gate(text, c, line, out, kind),
    );
}
