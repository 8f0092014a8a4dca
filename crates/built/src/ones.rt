// The clauses of literals that are to be 1: constraints, and the bad literal.
ghost use Rattle.std.specs.Prelude.{◌<◌, ◌≤◌};
ghost use Rattle.meaning.specs.Built.{one_clauses};
ghost use Rattle.meaning.specs.CircuitText.{numbers_at};
ghost use Rattle.meaning.specs.Filed.{clause_records};
ghost use Rattle.sections.specs.Whole.{RowsAt, circuit_at};
ghost use Rattle.clause_count.specs.Rows.{RowAt};
ghost use Rattle.clause_count.specs.Bad.{literals_of};
ghost use Rattle.built.specs.Edges.{Small};
ghost use Rattle.built.specs.Sections.{one_line};
ghost use Rattle.records.specs.Puts.{Puts, HasRoom};

use crate::clause::put_clause;
use crate::edge::edge_at;
use crate::walk::put_lines;
use records::Records;
use sections::circuit::Circuit;
use sections::find::Lines;

// The clause of the literal on a line.
fn put_one(text: &[u8], c: Circuit, line: usize, out: &mut Records<'_>, kind: usize)
    requires small { Small text.now c }
    requires row_at { RowAt text.now 1 line }
    requires kind_bound { kind < 65536 }
    requires line_in_bounds { HasRoom (clause_records kind (one_line (circuit_at text.now c) 0 (numbers_at text.now line))) out.old }
    ensures { Puts (clause_records kind (one_line (circuit_at text.now c) 0 (numbers_at text.now line))) out.old out.new }
{
    let e = edge_at(text, c, line, 0);
    put_clause(out, kind, &[e]);
}

// The clauses of the literals on the lines of a section, as records of a kind.
pub fn put_ones(text: &[u8], c: Circuit, s: Lines, out: &mut Records<'_>, kind: usize)
    requires small { Small text.now c }
    requires rows_at { RowsAt text.now 1 s }
    requires kind_bound { kind < 65536 }
    requires s_in_bounds { HasRoom (clause_records kind (one_clauses (circuit_at text.now c) (literals_of text.now s))) out.old }
    ensures { Puts (clause_records kind (one_clauses (circuit_at text.now c) (literals_of text.now s))) out.old out.new }
{
    put_lines(
        text,
        s,
        out,
        |line, _, out| put_one(text, c, line, out, kind),
    );
}
