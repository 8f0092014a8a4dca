// One number of a line.
ghost use Rattle.std.specs.Prelude.{◌≡◌, true, ◌<◌, ◌≤◌, length, get_or};
ghost use Rattle.meaning.specs.Clauses.{all};
ghost use Rattle.meaning.specs.Lines.{ended, line_at, words, is_number};
ghost use Rattle.meaning.specs.CircuitText.{numbers_at};
ghost use Rattle.lines.specs.Digits.{StandIn};
ghost use Rattle.lines.specs.Numbers.{worth};

use lines::number::{Number, number_at};

// Number j, counted from 0, of the line of numbers that starts at a place.
pub fn nth(text: &[u8], at: usize, j: usize) -> Number<'_>
    requires at_in_bounds { at ≤ length text.now }
    requires at_value { ended text.now at ≡ true }
    requires at_value_2 { all is_number (words (line_at text.now at)) ≡ true }
    requires j_in_bounds { j < length (words (line_at text.now at)) }
    ensures { (worth result ≡ get_or (numbers_at text.now at) j 0) × (0 < length result.digits.now) × StandIn text.now result.digits.now }
{
    let mut p = at;
    let mut x = number_at(text, p);
    for _ in 0..j {
        p = p + x.digits.len() + 1;
        x = number_at(text, p);
    }
    x
}
