// The clauses that come of lines, counted.
ghost use Rattle.std.specs.Prelude.{◌≡◌, ◌≤◌};
ghost use Rattle.meaning.specs.CircuitText.{numbers_at};
ghost use Rattle.sections.specs.Whole.{RowsAt};
ghost use Rattle.clause_count.specs.Rows.{RowAt};
ghost use Rattle.clause_count.specs.Lengths.{unless_any, clauses_of_one, clauses_of_latch, clauses_of_gate, clauses_of, width_of};
ghost use Rattle.clause_count.specs.Tally.{tally_of};

use crate::start::{start_at, value_at};
use lines::line::next_line;
use sections::find::Lines;

// What stands on a line: a literal that is to be 1, a latch, or a gate.
#[derive(Clone, Copy)]
pub enum Kind {
    One,
    Latch,
    Gate,
}

// One clause, or none where one of its literals is constantly true.
fn unless<const N: usize>(literals: [bool; N]) -> usize
    ensures { (result ≡ unless_any literals.entry) × (result ≤ 1) }
{
    usize::from(!literals.contains(&true))
}

// A literal that is to be 1.
fn one_clauses(text: &[u8], line: usize) -> usize
    requires { RowAt text.now 1 line }
    ensures { (result ≡ clauses_of_one (numbers_at text.now line)) × (result ≤ 3) }
{
    let l = value_at(text, line, 0);
    unless([l == 1])
}

// A latch: its start, unless it starts at either value, and its next value.
fn latch_clauses(text: &[u8], line: usize) -> usize
    requires { RowAt text.now 2 line }
    ensures { (result ≡ clauses_of_latch (numbers_at text.now line)) × (result ≤ 3) }
{
    let start = start_at(text, line);
    let x = value_at(text, line, 1);
    unless([start.is_none()]) + unless([x == 1]) + unless([x == 0])
}

// A gate g of a and b: (a -g)(b -g)(g -a -b).
fn gate_clauses(text: &[u8], line: usize) -> usize
    requires { RowAt text.now 3 line }
    ensures { (result ≡ clauses_of_gate (numbers_at text.now line)) × (result ≤ 3) }
{
    let g = value_at(text, line, 0);
    let a = value_at(text, line, 1);
    let b = value_at(text, line, 2);
    unless([a == 1, g == 0]) + unless([b == 1, g == 0]) + unless([g == 1, a == 0, b == 0])
}

// A line of a kind.
fn line_clauses(text: &[u8], line: usize, kind: Kind) -> usize
    requires { RowAt text.now (width_of kind) line }
    ensures { (result ≡ clauses_of kind (numbers_at text.now line)) × (result ≤ 3) }
{
    match kind {
        Kind::One => one_clauses(text, line),
        Kind::Latch => latch_clauses(text, line),
        Kind::Gate => gate_clauses(text, line),
    }
}

// All lines of a section.
pub fn lines_clauses(text: &[u8], s: Lines, kind: Kind) -> usize
    requires rows_at { RowsAt text.now (width_of kind) s }
    requires count_bound { s.count ≤ 32768 }
    ensures { (result ≡ tally_of kind text.now s) × (result ≤ 98304) }
{
    let mut line = s.at;
    let mut sum: usize = 0;
    for _ in 0..s.count {
        sum += line_clauses(text, line, kind);
        line = next_line(text, line);
    }
    sum
}
