// Which limit two texts are over, with the number that was met.
ghost use Rattle.std.specs.Prelude.{◌≡◌, ◌<◌, ◌≤◌, length};
ghost use Rattle.meaning.specs.Lines.{line_at};
ghost use Rattle.circuit_text.specs.Header.{header_at};
ghost use Rattle.text_faults.specs.Places.{count_of};
ghost use Rattle.text_faults.specs.Limits.{long_lemma, lemmas_limit, bads_limit, property_limit, width_limit, header_limit, limit_of};

use crate::places::{after_line, count_byte, line_number};
use circuit_text::header::{Header, read_header};
use symbols::line::line_end;

// The limit, and what was met.
#[derive(Clone, Copy)]
pub enum Limit {
    LongCircuit, // the circuit has more than 65,536 bytes
    LongLemmas, // the lemmas have
    NoLatch, // no latch
    Latches(usize), // more than 96
    Width(usize, usize), // inputs and gates: more than 320 together
    NoBad, // no bad literal and no output
    Outputs(usize), // more than one, and no bad literal
    Bads(usize), // bad literals: more than one, and no output
    Both(usize, usize), // outputs and bad literals: some of each
    Lemmas(usize), // more than 128
    LongLemma(usize, usize), // the lemma of this line has so many literals: more than 64
    Clauses, // none of these: more than 4,096 clauses
}

// How many spaces a line has: as many as literals, where it is a lemma.
#[tactic(auto, using(crate::specs::LimitLaws::line_part))]
fn spaces(text: &[u8], at: usize) -> usize
    requires { at ≤ length text.now }
    ensures { result ≡ count_of 32 (line_at text.now at) }
{
    let end = line_end(text, at);
    count_byte(&text[at..end], b' ')
}

// The first lemma of more than 64 literals; where there is none, the clauses are what is left.
fn long_lemma(text: &[u8]) -> Limit
    ensures { result ≡ long_lemma (length text.now) text.now 0 }
{
    let mut p: usize = 0;
    // No `for`: the place goes from line to line, and nothing is counted by hand.
    while p < text.len() {
        let met = spaces(text, p);
        if 64 < met {
            return Limit::LongLemma(line_number(text, p), met);
        }
        p = after_line(text, p);
    }
    Limit::Clauses
}

// How many lemmas there are, and their lengths.
#[tactic(auto, unfolding(crate::specs::Limits::lemmas_limit))]
fn lemmas_limit(lemmas: &[u8]) -> Limit
    ensures { result ≡ lemmas_limit lemmas.now }
{
    let met = count_byte(lemmas, b'\n');
    if 128 < met {
        return Limit::Lemmas(met);
    }
    long_lemma(lemmas)
}

// No output, and so many bad literals; then the lemmas.
#[tactic(auto, unfolding(crate::specs::Limits::bads_limit))]
fn bads_limit(bads: usize, lemmas: &[u8]) -> Limit
    ensures { result ≡ bads_limit bads lemmas.now }
{
    match bads {
        0 => Limit::NoBad,
        1 => lemmas_limit(lemmas),
        _ => Limit::Bads(bads),
    }
}

// Outputs and bad literals, then the lemmas.
#[tactic(auto, unfolding(crate::specs::Limits::property_limit))]
fn property_limit(outputs: usize, bads: usize, lemmas: &[u8]) -> Limit
    ensures { result ≡ property_limit outputs bads lemmas.now }
{
    if outputs == 0 {
        return bads_limit(bads, lemmas);
    }
    if bads != 0 {
        return Limit::Both(outputs, bads);
    }
    if outputs != 1 {
        return Limit::Outputs(outputs);
    }
    lemmas_limit(lemmas)
}

// Inputs and gates, then outputs and bad literals, then the lemmas.
#[tactic(auto, using(crate::specs::LimitLaws::is_wide, crate::specs::LimitLaws::is_narrow, lines::specs::Numbers::value_is), unfolding(circuit_text::specs::Header::header_at))]
fn width_limit(h: &Header, lemmas: &[u8]) -> Limit
    ensures { result ≡ width_limit (header_at h.now) lemmas.now }
{
    if 320 < h.i.value || 320 - h.i.value < h.a.value {
        return Limit::Width(h.i.value, h.a.value);
    }
    property_limit(h.o.value, h.b.value, lemmas)
}

// The latches, then the rest.
#[tactic(auto, using(crate::specs::LimitLaws::no_latch, crate::specs::LimitLaws::many_latches, crate::specs::LimitLaws::few_latches, lines::specs::Numbers::value_is), unfolding(circuit_text::specs::Header::header_at))]
fn header_limit(h: &Header, lemmas: &[u8]) -> Limit
    ensures { result ≡ header_limit (header_at h.now) lemmas.now }
{
    if h.l.value == 0 {
        return Limit::NoLatch;
    }
    if 96 < h.l.value {
        return Limit::Latches(h.l.value);
    }
    width_limit(h, lemmas)
}

// The first limit that the texts are over, in the order of the list; the clauses, which are not counted here, where no other is; none, where
// there is no header.
#[tactic(auto, unfolding(crate::specs::Limits::limit_of))]
pub fn limit_of(text: &[u8], lemmas: &[u8]) -> Option<Limit>
    ensures { result ≡ limit_of text.now lemmas.now }
{
    if 65536 < text.len() {
        return Some(Limit::LongCircuit);
    }
    if 65536 < lemmas.len() {
        return Some(Limit::LongLemmas);
    }
    let h = read_header(text)?;
    Some(header_limit(&h, lemmas))
}
