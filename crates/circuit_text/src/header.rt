// The header: aag M I L O A, or aag M I L O A B C J F of which the last may be left out.
ghost use Rattle.std.specs.Prelude.{◌≡◌, true, ◌≤◌, length, IfSome};
ghost use Rattle.meaning.specs.Lines.{ended, line_at, of_numbers};
ghost use Rattle.lines.specs.Digits.{StandIn};
ghost use Rattle.circuit_text.specs.Header.{starts, HeaderIs, WidthIs, NumberIs, NumbersStand};

use lines::compare::compare;
use lines::line::{line_past, next_line};
use lines::number::{Number, no_number};
use sections::nth::nth;

// A right header: where the next line starts, whether it is of edition 1.9, and its numbers: 0 for each that is left out.
#[derive(Clone, Copy)]
pub struct Header<'a> {
    pub next: usize,
    pub newer: bool,
    pub m: Number<'a>,
    pub i: Number<'a>,
    pub l: Number<'a>,
    pub o: Number<'a>,
    pub a: Number<'a>,
    pub b: Number<'a>,
    pub c: Number<'a>,
    pub j: Number<'a>,
    pub f: Number<'a>,
}

// The text starts with 'aag' and a space.
pub fn starts(text: &[u8]) -> bool
    ensures { result ≡ starts text.now }
{
    text.starts_with(b"aag ")
}

// How many numbers follow 'aag' and its space, if these are five to nine.
pub fn width_of(text: &[u8]) -> Option<usize>
    requires { 4 ≤ length text.now }
    ensures { WidthIs text.now result }
{
    for width in 5..10 {
        if line_past(text, 4, width).is_some() {
            return Some(width);
        }
    }
    None
}

// Number j of so many that follow 'aag' and its space; one that is left out is 0.
fn number_of(text: &[u8], width: usize, j: usize) -> Number<'_>
    requires in_bounds { 4 ≤ length text.now }
    requires text_value { ended text.now 4 ≡ true }
    requires text_value_2 { of_numbers width (line_at text.now 4) ≡ true }
    ensures number { NumberIs text.now j result }
    ensures stands { StandIn text.now result.digits.now }
{
    if j < width {
        return nth(text, 4, j);
    }
    no_number()
}

// 'aag' and five to nine numbers, with I + L + A at most M.
pub fn read_header(text: &[u8]) -> Option<Header<'_>>
    ensures header { HeaderIs text.now result }
    ensures stand { IfSome result (NumbersStand text.now) }
{
    if !starts(text) {
        return None;
    }
    let width = width_of(text)?;
    let m = number_of(text, width, 0);
    let i = number_of(text, width, 1);
    let l = number_of(text, width, 2);
    let o = number_of(text, width, 3);
    let a = number_of(text, width, 4);
    let b = number_of(text, width, 5);
    let c = number_of(text, width, 6);
    let j = number_of(text, width, 7);
    let f = number_of(text, width, 8);
    if compare(&i, &l, &a, 0, &m).is_gt() {
        return None;
    }
    Some(Header {
        next: next_line(text, 4),
        newer: 5 < width,
        m,
        i,
        l,
        o,
        a,
        b,
        c,
        j,
        f,
    })
}
