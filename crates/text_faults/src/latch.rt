// Why a latch line is refused: two numbers and, in edition 1.9, perhaps a third, its start value.
ghost use Rattle.std.specs.Prelude.{◌≡◌, true, ◌<◌, length};
ghost use Rattle.meaning.specs.CircuitText.{start_right, latch_form, numbers_at};
ghost use Rattle.lines.specs.Numbers.{worth};
ghost use Rattle.text_faults.specs.Definers.{Inside};
ghost use Rattle.text_faults.specs.Causes.{Row};
ghost use Rattle.text_faults.specs.Latches.{start_cause, third_cause, latch_numbers, latch_cause};

use crate::cause::{Cause, literals_cause, numbered};
use crate::definers::Places;
use lines::compare::is_sum;
use lines::number::Number;
use sections::nth::nth;

// Whether the third number of a line is 0, 1 or its first.
#[tactic(auto, using(crate::specs::Latches::starts_constant, crate::specs::Latches::starts_own))]
fn starts_right(text: &[u8], at: usize) -> bool
    requires { Row text.now at 3 }
    ensures { result ≡ start_right (latch_form true) (numbers_at text.now at) }
{
    let start = nth(text, at, 2);
    if start.value < 2 {
        return true;
    }
    is_sum(&start, 0, &nth(text, at, 0))
}

// By how many numbers it has.
#[tactic(auto, using(crate::specs::CauseLaws::row_of, crate::specs::CauseLaws::row_part), unfolding(crate::specs::Latches::latch_cause, crate::specs::Latches::third_cause, crate::specs::Latches::start_cause, crate::specs::Latches::latch_numbers))]
pub fn latch_cause(text: &[u8], at: usize, newer: bool, m: &Number, p: Places) -> Cause
    requires at_in_bounds { at < length text.now }
    requires inside { Inside text.now p }
    ensures { result ≡ latch_cause text.now at newer (worth m.now) p }
{
    if numbered(text, at, 2) {
        return literals_cause(text, at, 2, true, m, p);
    }
    if !numbered(text, at, 3) {
        return if newer {
            Cause::LatchNumbers
        } else {
            Cause::Numbers(2)
        };
    }
    if !newer {
        return Cause::Reset;
    }
    if !starts_right(text, at) {
        return Cause::Start;
    }
    literals_cause(text, at, 2, true, m, p)
}
