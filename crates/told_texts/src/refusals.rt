// Refusals in plain words: of 13 the text, the line and its place, what is wrong with it, and the line itself.
ghost use Rattle.text.specs.Page.{Holds};
ghost use Rattle.text.specs.Pages.{Puts};
ghost use Rattle.told_texts.specs.Refusals.{place_text, line_shown, circuit_line, lemma_line, text_refusal};

use crate::causes::{put_cause, put_kind, put_lemma_cause};
use crate::limits::limit_line;
use crate::liveness::liveness_line;
use symbols::line::line_end;
use text::Page;
use text_faults::circuit::{circuit_fault, latches_of};
use text_faults::lemmas::lemma_cause;
use text_faults::limits::limit_of;
use text_faults::liveness::liveness_of;
use text_faults::places::line_number;
use usage::put_word;

// The place, and the text by its name.
fn put_place(page: &mut Page<'_>, text: &[u8], place: usize, what: &[u8], name: &[u8])
    ensures { Puts (place_text text.now place what.now name.now) page.old page.new }
{
    page.put_filled(
        b"refusal 13 at byte #, line # of the ",
        &[place as u64, line_number(text, place) as u64],
    );
    page.put_all(what);
    put_word(page, name)
}

// The line, where there is one: its first 200 bytes, indented.
fn put_line(page: &mut Page<'_>, text: &[u8], place: usize)
    ensures { Puts (line_shown text.now place) page.old page.new }
{
    if text.len() <= place {
        return;
    }
    let end = line_end(text, place);
    page.put_all(b"  ");
    put_word(page, &text[place..end]);
    page.put_all(b"\n")
}

// A circuit whose line at a place is at fault.
pub fn circuit_line(name: &[u8], text: &[u8], place: usize, out: &mut [u8]) -> usize
    ensures { Holds out.old (circuit_line name.now text.now place) out.new result }
{
    let mut page = Page::new(out);
    let f = circuit_fault(text, place);
    put_place(&mut page, text, place, b"circuit ", name);
    put_kind(&mut page, f.kind);
    put_cause(&mut page, text, f.cause);
    put_line(&mut page, text, place);
    page.end
}

// A lemma text, of a circuit, whose line at a place is at fault.
pub fn lemma_line(name: &[u8], circuit: &[u8], text: &[u8], place: usize, out: &mut [u8]) -> usize
    ensures { Holds out.old (lemma_line name.now circuit.now text.now place) out.new result }
{
    let mut page = Page::new(out);
    let latches = latches_of(circuit);
    let cause = lemma_cause(text, place, latches);
    put_place(&mut page, text, place, b"lemmas ", name);
    page.put_all(b": ");
    put_lemma_cause(&mut page, latches, cause);
    put_line(&mut page, text, place);
    page.end
}

// A refusal of two texts, by its number, which is that of the report in the C interface, and its place: 13 of the circuit, 13 of the lemmas, 15,
// or 14.
pub fn text_refusal(
    name: &[u8],
    circuit: &[u8],
    other: &[u8],
    lemmas: &[u8],
    number: u32,
    place: usize,
    first: bool,
    out: &mut [u8],
) -> usize
    ensures { Holds out.old (text_refusal name.now circuit.now other.now lemmas.now number place first) out.new result }
{
    if number == 15 {
        return liveness_line(name, liveness_of(circuit), out);
    }
    if number != 13 {
        return limit_line(name, other, limit_of(circuit, lemmas), out);
    }
    if first {
        return circuit_line(name, circuit, place, out);
    }
    lemma_line(other, circuit, lemmas, place, out)
}
