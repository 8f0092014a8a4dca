// What is wrong with the line of a circuit text at a place.
ghost use Rattle.std.specs.Prelude.{◌≡◌, true, ◌<◌, length};
ghost use Rattle.meaning.specs.Lines.{ended};
ghost use Rattle.circuit_text.specs.Header.{Parts, header_at};
ghost use Rattle.symbols.specs.Symbols.{Small};
ghost use Rattle.text_faults.specs.Circuits.{below_huge, counts_of, symbol_cause, closed_cause, line_cause, header_fault, circuit_fault, latches_of};

use crate::cause::{Cause, count_cause, form_cause, header_cause};
use crate::definers::places_of;
use crate::kind::{Kind, kind_of};
use crate::latch::latch_cause;
use crate::places::line_number;
use crate::sizes::{Sizes, sizes_of};
use circuit_text::header::{Header, read_header};
use symbols::Counts;
use symbols::line::{Line, line_end};

// The kind of a line, and why it is refused.
#[derive(Clone, Copy)]
pub struct Fault {
    pub kind: Kind,
    pub cause: Cause,
}

// A count that is below every value that is not told apart.
#[tactic(auto, unfolding(crate::specs::Circuits::below_huge))]
fn below_huge(n: usize) -> usize
    ensures { (result ≡ below_huge n) × (result < 18446744073709551610) }
{
    n.min(18446744073709551609)
}

// How many positions each letter has.
#[tactic(auto, unfolding(crate::specs::Circuits::counts_of))]
fn counts_of(s: Sizes) -> Counts
    ensures { (result ≡ counts_of s) × Small result }
{
    Counts {
        i: below_huge(s.inputs),
        l: below_huge(s.latches),
        o: below_huge(s.outputs),
        b: below_huge(s.bads),
        c: below_huge(s.constraints),
        j: below_huge(s.counts),
        f: below_huge(s.fairness),
    }
}

// A symbol line: its form, its position; else the position was named before.
#[tactic(auto, using(crate::specs::CauseLaws::closed_end), unfolding(crate::specs::Circuits::symbol_cause))]
fn symbol_cause(text: &[u8], at: usize, s: Sizes) -> Cause
    requires at_in_bounds { at < length text.now }
    requires at_value { ended text.now at ≡ true }
    ensures { result ≡ symbol_cause text.now at s }
{
    let end = line_end(text, at);
    let line = Line { text, at, end };
    let most = 18446744073709551609;
    let any = Counts {
        i: most,
        l: most,
        o: most,
        b: most,
        c: most,
        j: most,
        f: most,
    };
    if !line.named_right(any) {
        return Cause::SymbolForm;
    }
    let counts = counts_of(s);
    if !line.named_right(counts) {
        return Cause::SymbolRange;
    }
    Cause::SymbolTwice
}

// A line that is ended.
#[tactic(auto, unfolding(circuit_text::specs::Header::header_at))]
fn closed_cause(text: &[u8], at: usize, kind: Kind, h: &Header, s: Sizes) -> Cause
    requires parts { Parts text.now h.now }
    requires at_in_bounds { at < length text.now }
    requires at_value { ended text.now at ≡ true }
    ensures { result ≡ closed_cause text.now at kind (header_at h.now) s h.now.next }
{
    let p = places_of(text, s, h.next);
    match kind {
        Kind::Header => Cause::Stuck,
        Kind::Input => form_cause(text, at, 1, true, &h.m, p),
        Kind::Latch => latch_cause(text, at, h.newer, &h.m, p),
        Kind::Output | Kind::Bad | Kind::Constraint | Kind::Justice | Kind::Fairness => {
            form_cause(text, at, 1, false, &h.m, p)
        }
        Kind::Count => count_cause(text, at),
        Kind::Gate => form_cause(text, at, 3, true, &h.m, p),
        Kind::Symbol => symbol_cause(text, at, s),
    }
}

// A line under a header that is right.
#[tactic(auto, using(symbols::specs::Walk::is_closed, symbols::specs::Walk::is_open), unfolding(crate::specs::Circuits::line_cause))]
fn line_cause(text: &[u8], at: usize, kind: Kind, h: &Header, s: Sizes) -> Cause
    requires { Parts text.now h.now }
    ensures { result ≡ line_cause text.now at kind (header_at h.now) s h.now.next }
{
    if text.len() <= at {
        return Cause::Missing;
    }
    if text.len() <= line_end(text, at) {
        return Cause::Open;
    }
    closed_cause(text, at, kind, h, s)
}

// A header that is not right, or missing.
#[tactic(auto, unfolding(crate::specs::Circuits::header_fault))]
fn header_fault(text: &[u8]) -> Fault
    ensures { result ≡ header_fault text.now }
{
    let cause = if text.is_empty() {
        Cause::Missing
    } else {
        header_cause(text)
    };
    Fault {
        kind: Kind::Header,
        cause,
    }
}

// The line at a place.
#[tactic(auto, unfolding(crate::specs::Circuits::circuit_fault))]
pub fn circuit_fault(text: &[u8], at: usize) -> Fault
    ensures { result ≡ circuit_fault text.now at }
{
    let Some(h) = read_header(text) else {
        return header_fault(text);
    };
    let s = sizes_of(text, &h);
    let kind = kind_of(s, line_number(text, at));
    Fault {
        kind,
        cause: line_cause(text, at, kind, &h, s),
    }
}

// How many latches a header has, as far as they are told apart; none, where it is not right.
// That is 0 and no Option, as `latches_of` in specs/Circuits.antt says.
#[tactic(auto, using(lines::specs::Numbers::value_is), unfolding(crate::specs::Circuits::latches_of, circuit_text::specs::Header::header_at))]
pub fn latches_of(text: &[u8]) -> usize
    ensures { (result ≡ latches_of text.now) × (result < 18446744073709551610) }
{
    let Some(h) = read_header(text) else {
        return 0;
    };
    below_huge(h.l.value)
}
