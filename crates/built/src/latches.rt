// The clauses of the latches: each starts where its line says, and takes the value of its next literal.
ghost use Rattle.std.specs.Prelude.{◌<◌, ◌≤◌};
ghost use Rattle.meaning.specs.Built.{next_clauses, latches_clauses, start_clauses};
ghost use Rattle.meaning.specs.CircuitText.{numbers_at};
ghost use Rattle.meaning.specs.Filed.{clause_records};
ghost use Rattle.sections.specs.Whole.{circuit_at};
ghost use Rattle.clause_count.specs.Rows.{RowAt};
ghost use Rattle.built.specs.Edges.{edge_of, variable_of, Small};
ghost use Rattle.built.specs.Sections.{latch_line, start_line};
ghost use Rattle.records.specs.Puts.{Puts, HasRoom};

use crate::clause::put_clause;
use crate::edge::{Edge, edge_at};
use crate::literal::Literal;
use crate::walk::put_lines;
use clause_count::start::start_at;
use records::Records;
use sections::circuit::Circuit;

// The clause of where latch i, counted from 0, starts: it is 0, or it is 1; none where it starts at either value.
fn put_start(text: &[u8], line: usize, i: usize, out: &mut Records<'_>)
    requires row_at { RowAt text.now 2 line }
    requires i_bound { i < 96 }
    requires line_in_bounds { HasRoom (clause_records 2 (start_line i (numbers_at text.now line))) out.old }
    ensures { Puts (clause_records 2 (start_line i (numbers_at text.now line))) out.old out.new }
{
    let Some(start) = start_at(text, line) else {
        return;
    };
    let e = Edge::Named(Literal {
        negative: !start,
        variable: i + 1,
    });
    put_clause(out, 2, &[e]);
}

// The clauses of where all latches start, by line order.
pub fn put_starts(text: &[u8], c: Circuit, out: &mut Records<'_>)
    requires small { Small text.now c }
    requires c_in_bounds { HasRoom (clause_records 2 (start_clauses 1 (circuit_at text.now c).latches)) out.old }
    ensures { Puts (clause_records 2 (start_clauses 1 (circuit_at text.now c).latches)) out.old out.new }
{
    put_lines(
        text,
        c.latches,
        out,
        |line, i, out| put_start(text, line, i, out),
    );
}

// The two clauses that make variable y what x is.
fn put_same(out: &mut Records<'_>, y: usize, x: Edge)
    requires le_y { 1 ≤ y }
    requires y_bound { y ≤ 32767 }
    requires variable_bound { variable_of x ≤ 32767 }
    requires x_in_bounds { HasRoom (clause_records 3 (next_clauses y (edge_of x))) out.old }
    ensures { Puts (clause_records 3 (next_clauses y (edge_of x))) out.old out.new }
{
    let off = Edge::Named(Literal {
        negative: true,
        variable: y,
    });
    let on = off.opposite();
    let not_x = x.opposite();
    put_clause(out, 3, &[off, x]);
    put_clause(out, 3, &[on, not_x]);
}

// The clauses of latch i, counted from 0, on a line.
fn put_latch(text: &[u8], c: Circuit, line: usize, i: usize, out: &mut Records<'_>)
    requires small { Small text.now c }
    requires row_at { RowAt text.now 2 line }
    requires i_bound { i < 96 }
    requires line_in_bounds { HasRoom (clause_records 3 (latch_line (circuit_at text.now c) i (numbers_at text.now line))) out.old }
    ensures { Puts (clause_records 3 (latch_line (circuit_at text.now c) i (numbers_at text.now line))) out.old out.new }
{
    let x = edge_at(text, c, line, 1);
    put_same(out, c.latches.count + i + 1, x);
}

// The clauses of all latches, by line order.
pub fn put_latches(text: &[u8], c: Circuit, out: &mut Records<'_>)
    requires small { Small text.now c }
    requires c_in_bounds { HasRoom (clause_records 3 (latches_clauses (circuit_at text.now c) 1 (circuit_at text.now c).latches)) out.old }
    ensures { Puts (clause_records 3 (latches_clauses (circuit_at text.now c) 1 (circuit_at text.now c).latches)) out.old out.new }
{
    put_lines(
        text,
        c.latches,
        out,
        |line, i, out| put_latch(text, c, line, i, out),
    );
}
