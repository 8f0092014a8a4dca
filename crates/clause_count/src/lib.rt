// How many clauses the problem that is built from a circuit has: counted line by line, less those that a constant true drops, with nothing
// written. And what both that count and the writing of the clauses ask of a circuit's lines: where a latch starts, and the bad literal.
#![tactic(auto)]

ghost use Rattle.std.specs.Prelude.{◌≡◌, [], ◌≤◌, length};
ghost use Rattle.meaning.specs.Built.{built};
ghost use Rattle.meaning.specs.Circuits.{clause_count};
ghost use Rattle.sections.specs.Whole.{Whole, circuit_at};
ghost use Rattle.clause_count.specs.Bad.{OneBad};

pub mod bad;
pub mod count;
pub mod start;

use bad::bad_lines;
use count::{Kind, lines_clauses};
use sections::circuit::Circuit;

// The clauses of Init, Tr and Bad together: gates and constraints stand in Tr and in Bad.
pub fn clause_count(text: &[u8], c: Circuit) -> usize
    requires whole { Whole text.now c }
    requires one_bad { OneBad c.properties }
    requires text_len_bound { length text.now ≤ 65536 }
    ensures { (result ≡ clause_count (built (circuit_at text.now c) [])) × (result ≤ 589824) }
{
    let bad = bad_lines(c.properties);
    let l = lines_clauses(text, c.latches, Kind::Latch);
    let g = lines_clauses(text, c.gates, Kind::Gate);
    let k = lines_clauses(text, c.properties.constraints, Kind::One);
    let b = lines_clauses(text, bad, Kind::One);
    l + g + g + k + k + b
}
