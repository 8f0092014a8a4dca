// How many lines of each kind a circuit text should have: by its header and, for the literals of the justice properties, by the lines that
// count them.
ghost use Rattle.std.specs.Prelude.{◌≡◌, ◌+◌, ◌≤◌, length};
ghost use Rattle.circuit_text.specs.Header.{Parts, header_at};
ghost use Rattle.lines.specs.Numbers.{huge, capped};
ghost use Rattle.text_faults.specs.Sizes.{first_sum, counts_at, sizes_of};

use crate::places::{after_line, skip};
use circuit_text::header::Header;
use lines::number::{Number, number_at};

// The lines after the header, kind by kind in their order; numbers that no word holds count as one that it does.
#[derive(Clone, Copy)]
pub struct Sizes {
    pub inputs: usize,
    pub latches: usize,
    pub outputs: usize,
    pub bads: usize,
    pub constraints: usize,
    pub counts: usize,
    pub justice: usize,
    pub fairness: usize,
    pub gates: usize,
}

// A sum, as far as it is told apart.
#[tactic(auto, using(crate::specs::Sizes::capped_cases))]
fn added(a: usize, b: usize) -> usize
    requires { a ≤ huge }
    ensures { (result ≡ capped (a + b)) × (result ≤ huge) }
{
    a.saturating_add(b).min(Number::HUGE)
}

// The numbers that so many lines start with, all together.
fn first_sum(text: &[u8], at: usize, count: usize) -> usize
    requires { at ≤ length text.now }
    ensures { result ≡ capped (first_sum count text.now at) }
{
    let mut p = at;
    let mut sum: usize = 0;
    for done in 0..count {
        if text.len() <= p {
            return sum;
        }
        sum = added(sum, number_at(text, p).value);
        p = after_line(text, p);
    }
    sum
}

// Where the counts of the justice properties start.
#[tactic(auto, using(lines::specs::Numbers::value_is), unfolding(crate::specs::Sizes::counts_at, circuit_text::specs::Header::header_at))]
fn counts_at(text: &[u8], h: &Header) -> usize
    requires { Parts text.now h.now }
    ensures { (result ≡ counts_at text.now (header_at h.now) h.now.next) × (result ≤ length text.now) }
{
    let outputs = skip(text, skip(text, h.next, h.i.value), h.l.value);
    let constraints = skip(text, skip(text, outputs, h.o.value), h.b.value);
    skip(text, constraints, h.c.value)
}

// By the header and the counts.
#[tactic(auto, using(lines::specs::Numbers::value_is), unfolding(crate::specs::Sizes::sizes_of, circuit_text::specs::Header::header_at))]
pub fn sizes_of(text: &[u8], h: &Header) -> Sizes
    requires { Parts text.now h.now }
    ensures { result ≡ sizes_of text.now (header_at h.now) h.now.next }
{
    Sizes {
        inputs: h.i.value,
        latches: h.l.value,
        outputs: h.o.value,
        bads: h.b.value,
        constraints: h.c.value,
        counts: h.j.value,
        justice: first_sum(text, counts_at(text, h), h.j.value),
        fairness: h.f.value,
        gates: h.a.value,
    }
}
