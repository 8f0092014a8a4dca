// What is wrong with a line, in plain words, and what to do.
ghost use Rattle.text.specs.Pages.{Puts};
ghost use Rattle.told_texts.specs.Causes.{kind_text, cause_text, lemma_cause_text};

use text::Page;
use text_faults::cause::Cause;
use text_faults::kind::Kind;
use text_faults::lemmas;
use text_faults::places::line_number;

// Which line of a circuit it is.
pub fn put_kind(page: &mut Page<'_>, kind: Kind)
    ensures { Puts (kind_text kind) page.old page.new }
{
    match kind {
        Kind::Header => page.put_all(b", the header: "),
        Kind::Input => page.put_all(b", an input: "),
        Kind::Latch => page.put_all(b", a latch: "),
        Kind::Output => page.put_all(b", an output: "),
        Kind::Bad => page.put_all(b", a bad literal: "),
        Kind::Constraint => page.put_all(b", a constraint: "),
        Kind::Count => page.put_all(b", the count of a justice property: "),
        Kind::Justice => page.put_all(b", a literal of a justice property: "),
        Kind::Fairness => page.put_all(b", a fairness literal: "),
        Kind::Gate => page.put_all(b", a gate: "),
        Kind::Symbol => page.put_all(b", after the gates: "),
    }
}

// Why it is refused.
pub fn put_cause(page: &mut Page<'_>, text: &[u8], cause: Cause)
    ensures { Puts (cause_text text.now cause) page.old page.new }
{
    match cause {
        Cause::Missing => page.put_all(b"the text ends before this line\n"),
        Cause::Open => page.put_all(b"no newline ends the line: the text may have been cut\n"),
        Cause::NoAag => page.put_all(
            b"it does not start with aag and a space, as ASCII AIGER does: aag M I L O A (where yosys writes it: write_aiger -ascii)\n",
        ),
        Cause::HeaderNumbers => page.put_all(
            b"aag is not followed by five to nine numbers (M I L O A, or M I L O A B C J F with the last of them left out where they are 0), with one space before each and nothing else\n",
        ),
        Cause::HeaderSum => page.put_all(
            b"I + L + A is more than M, so more variables are defined than there are\n",
        ),
        Cause::Numbers(width) => page.put_filled(
            b"numbers wanted: #, of digits alone, with one space between two and nothing else on the line\n",
            &[width as u64],
        ),
        Cause::LatchNumbers => page.put_all(
            b"numbers wanted: two, or three with its start value, of digits alone, with one space between two and nothing else on the line\n",
        ),
        Cause::Reset => page.put_all(
            b"a third number, its start value, under a header of five numbers: give the header a sixth, aag M I L O A 0, and the text is of AIGER 1.9, which has start values (or have yosys start every latch at 0: write_aiger -zinit)\n",
        ),
        Cause::Start => page.put_all(
            b"the third number, its start value, is not 0, 1 or the literal of the latch itself (0 and 1: it starts at that value; its own literal: at either)\n",
        ),
        Cause::Odd => page.put_all(
            b"the literal that it defines is odd, but a literal that is defined is twice its variable\n",
        ),
        Cause::Small => page.put_all(
            b"the literal that it defines is a constant, but a literal that is defined is 2 at least\n",
        ),
        Cause::Range(j) => page.put_filled(
            b"number # is over 2M+1, the largest literal by the header\n",
            &[j as u64],
        ),
        Cause::Twice(place) => page.put_filled(
            b"line # defines this variable already\n",
            &[line_number(text, place) as u64],
        ),
        Cause::Undefined(j) => page.put_filled(
            b"number # is of a variable that no line defines\n",
            &[j as u64],
        ),
        Cause::Stuck => page.put_all(
            b"it cannot be worked out from constants, inputs and latches: it goes in a circle, or needs a gate that is at fault\n",
        ),
        Cause::SymbolForm => page.put_all(
            b"neither a symbol (i, l, o, b, c, j or f, at once a position below I, L, O, B, C, J or F, a space and a name) nor the line c\n",
        ),
        Cause::SymbolRange => page.put_all(
            b"there is no such position: positions are counted from 0, and a letter has as many as the header says (i I, l L, o O, b B, c C, j J, f F), none where it leaves that number out\n",
        ),
        Cause::SymbolTwice => page.put_all(b"an earlier line names this position\n"),
    }
}

// Why a line of lemmas is refused, over so many latches.
pub fn put_lemma_cause(page: &mut Page<'_>, latches: usize, cause: Option<lemmas::Cause>)
    ensures { Puts (lemma_cause_text latches cause) page.old page.new }
{
    let Some(cause) = cause else {
        return page.put_all(b"no lemma\n");
    };
    match cause {
        lemmas::Cause::Open => page.put_all(
            b"no newline ends the line: the text may have been cut\n",
        ),
        lemmas::Cause::Word(j) => page.put_filled(
            b"word # is not a number, with or without a - before it; it is empty where the line is, or where a space is too many\n",
            &[j as u64],
        ),
        lemmas::Cause::Inner(j) => page.put_filled(
            b"number # is 0, which stands only at the end, and the line goes on (perhaps with a space)\n",
            &[j as u64],
        ),
        lemmas::Cause::Over(j) => page.put_filled(
            b"number # names no latch: by its header the circuit has # of them\n",
            &[j as u64, latches as u64],
        ),
        lemmas::Cause::NoZero => page.put_all(b"the line does not end with a 0 without a sign\n"),
    }
}
