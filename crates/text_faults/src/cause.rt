// Why a line of a circuit text is refused.
ghost use Rattle.std.specs.Prelude.{◌≡◌, ◌<◌, ◌≤◌, length};
ghost use Rattle.lines.specs.Numbers.{worth};
ghost use Rattle.text_faults.specs.Definers.{Inside};
ghost use Rattle.text_faults.specs.Causes.{numbered, header_cause, Row, out, unknown_at, later_cause, uses_cause};
ghost use Rattle.text_faults.specs.Causes.{twice_cause, after_ranges, range_cause, defined_cause, literals_cause};
ghost use Rattle.text_faults.specs.Causes.{form_cause, count_cause};

use crate::definers::{Places, earlier, known_here};
use circuit_text::header::{starts, width_of};
use lines::line::line_past;
use lines::literal::{is_even, used_right};
use lines::number::Number;
use sections::nth::nth;
use symbols::line::line_end;

// What is wrong. Numbers of a line are counted from 1.
#[derive(Clone, Copy)]
pub enum Cause {
    Missing, // the text ends before it
    Open, // no newline ends it
    NoAag, // the header does not start with 'aag' and a space
    HeaderNumbers, // not five to nine numbers follow
    HeaderSum, // I + L + A is over M
    Numbers(usize), // it is not of so many numbers
    LatchNumbers, // a latch of edition 1.9 with neither two numbers nor three
    Reset, // a latch with three numbers under a header of five
    Start, // the third number of a latch is not 0, 1 or its own literal
    Odd, // the literal that it defines is odd
    Small, // the literal that it defines is under 2
    Range(usize), // a number over 2M+1
    Twice(usize), // the line at this place defines its variable
    Undefined(usize), // no line defines the variable of this number
    Stuck, // none of these: its gate cannot be worked out
    SymbolForm, // no symbol line
    SymbolRange, // no such position
    SymbolTwice, // none of these: its position was named before
}

// Whether a line is of so many numbers, and ended.
#[tactic(auto, using(crate::specs::CauseLaws::numbered_is))]
pub fn numbered(text: &[u8], at: usize, width: usize) -> bool
    requires at_in_bounds { at ≤ length text.now }
    requires le_width { 1 ≤ width }
    ensures { result ≡ numbered width text.now at }
{
    line_past(text, at, width).is_some()
}

// A header that is not right: another text altogether, not ended, or not as it should be.
#[tactic(auto, using(symbols::specs::Walk::is_closed, symbols::specs::Walk::is_open, circuit_text::specs::Header::four_in, crate::specs::CauseLaws::some_numbers, crate::specs::CauseLaws::no_numbers), unfolding(crate::specs::Causes::header_cause))]
pub fn header_cause(text: &[u8]) -> Cause
    ensures { result ≡ header_cause text.now }
{
    if !starts(text) {
        return Cause::NoAag;
    }
    if text.len() <= line_end(text, 0) {
        return Cause::Open;
    }
    if width_of(text).is_none() {
        return Cause::HeaderNumbers;
    }
    Cause::HeaderSum
}

// A line of so many numbers at least, whether its first defines a variable, and what it is judged by: the header's M, and where the lines that
// define variables are.
#[derive(Clone, Copy)]
struct Line<'a> {
    text: &'a [u8],
    at: usize,
    width: usize,
    defines: bool,
    m: &'a Number<'a>,
    p: Places,
    ghost row: { Row text.now at width },
    ghost inside: { Inside text.now p },
    ghost width_nonzero: { 0 < width },
}

impl Line<'_> {
    // Whether number j, counted from 0, is over 2M+1.
    #[tactic(auto, unfolding(crate::specs::Causes::out))]
    fn out(&self, j: usize) -> bool
        ensures { result ≡ out self.now.text.now self.now.at self.now.width j (worth self.now.m.now) }
    {
        j < self.width && !used_right(self.m, &nth(self.text, self.at, j))
    }

    // Whether no line defines the variable of number j.
    // One with `out` is no plainer: the question would be a closure, which needs a contract of its own, longer than this line of code.
    #[tactic(auto, unfolding(crate::specs::Causes::unknown_at))]
    fn unknown_at(&self, j: usize) -> bool
        ensures { result ≡ unknown_at self.now.text.now self.now.at self.now.width j self.now.p }
    {
        j < self.width && !known_here(self.text, self.p, &nth(self.text, self.at, j))
    }

    // The numbers after the first.
    #[tactic(auto, unfolding(crate::specs::Causes::later_cause))]
    fn later_cause(&self) -> Cause
        ensures { result ≡ later_cause self.now.text.now self.now.at self.now.width self.now.p }
    {
        if self.unknown_at(1) {
            return Cause::Undefined(2);
        }
        if self.unknown_at(2) {
            return Cause::Undefined(3);
        }
        Cause::Stuck
    }

    // What a line uses: the first number too, where it defines nothing.
    #[tactic(auto, unfolding(crate::specs::Causes::uses_cause))]
    fn uses_cause(&self) -> Cause
        ensures { result ≡ uses_cause self.now.text.now self.now.at self.now.width self.now.defines self.now.p }
    {
        if !self.defines && self.unknown_at(0) {
            return Cause::Undefined(1);
        }
        self.later_cause()
    }

    // A variable that an earlier line defines.
    #[tactic(auto, unfolding(crate::specs::Causes::twice_cause))]
    fn twice_cause(&self) -> Cause
        ensures { result ≡ twice_cause self.now.text.now self.now.at self.now.width self.now.defines self.now.p }
    {
        let found = earlier(self.text, self.p, &nth(self.text, self.at, 0), self.at);
        if found < self.at {
            return Cause::Twice(found);
        }
        self.uses_cause()
    }

    // A line whose numbers are in range.
    #[tactic(auto, unfolding(crate::specs::Causes::after_ranges))]
    fn after_ranges(&self) -> Cause
        ensures { result ≡ after_ranges self.now.text.now self.now.at self.now.width self.now.defines self.now.p }
    {
        if self.defines {
            return self.twice_cause();
        }
        self.uses_cause()
    }

    // Its ranges.
    #[tactic(auto, unfolding(crate::specs::Causes::range_cause))]
    fn range_cause(&self) -> Cause
        ensures { result ≡ range_cause self.now.text.now self.now.at self.now.width self.now.defines (worth self.now.m.now) self.now.p }
    {
        if self.out(0) {
            return Cause::Range(1);
        }
        if self.out(1) {
            return Cause::Range(2);
        }
        if self.out(2) {
            return Cause::Range(3);
        }
        self.after_ranges()
    }

    // A line that defines a variable.
    #[tactic(auto, using(sections::specs::Rows::value_small, sections::specs::Rows::value_least), unfolding(crate::specs::Causes::defined_cause))]
    fn defined_cause(&self) -> Cause
        ensures { result ≡ defined_cause self.now.text.now self.now.at self.now.width self.now.defines (worth self.now.m.now) self.now.p }
    {
        let l = nth(self.text, self.at, 0);
        if !is_even(&l) {
            return Cause::Odd;
        }
        if l.value < 2 {
            return Cause::Small;
        }
        self.range_cause()
    }
}

// A line of so many numbers.
// It is public and takes no `Line`: no type may stand in place of what it asks. The same holds of `form_cause`.
#[tactic(auto, unfolding(crate::specs::Causes::literals_cause))]
pub fn literals_cause(
    text: &[u8],
    at: usize,
    width: usize,
    defines: bool,
    m: &Number,
    p: Places,
) -> Cause
    requires row { Row text.now at width }
    requires inside { Inside text.now p }
    requires width_nonzero { 0 < width }
    ensures { result ≡ literals_cause text.now at width defines (worth m.now) p }
{
    let line = Line {
        text,
        at,
        width,
        defines,
        m,
        p,
    };
    if defines {
        return line.defined_cause();
    }
    line.range_cause()
}

// A line of so many numbers, and no others.
#[tactic(auto, using(crate::specs::CauseLaws::row_of), unfolding(crate::specs::Causes::form_cause))]
pub fn form_cause(
    text: &[u8],
    at: usize,
    width: usize,
    defines: bool,
    m: &Number,
    p: Places,
) -> Cause
    requires at_in_bounds { at < length text.now }
    requires inside { Inside text.now p }
    requires le_width { 1 ≤ width }
    ensures { result ≡ form_cause text.now at width defines (worth m.now) p }
{
    if !numbered(text, at, width) {
        return Cause::Numbers(width);
    }
    literals_cause(text, at, width, defines, m, p)
}

// A line with a count, which may be any number.
#[tactic(auto, unfolding(crate::specs::Causes::count_cause))]
pub fn count_cause(text: &[u8], at: usize) -> Cause
    requires { at ≤ length text.now }
    ensures { result ≡ count_cause text.now at }
{
    if numbered(text, at, 1) {
        return Cause::Stuck;
    }
    Cause::Numbers(1)
}
