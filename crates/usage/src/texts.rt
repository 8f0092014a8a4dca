// What the program says of its own words, on a page that the caller lends. Each function answers how long the text is; where it doesn't
// fit, one more than the page has.
ghost use Rattle.std.specs.Prelude.{◌≡◌, map};
ghost use Rattle.text.specs.Page.{Holds};
ghost use Rattle.text.specs.Pages.{Puts};
ghost use Rattle.usage.specs.Texts.{shown_byte, shown, around, allowed, number_text, fault_text};
ghost use Rattle.usage.specs.Texts.{not_opened, not_read, circuit_alone, version_text, help_text};

use text::Page;
use words::{Fault, Order};

#[tactic(auto, unfolding(crate::specs::Texts::shown_byte))]
fn shown_byte(b: u8) -> u8
    ensures { result ≡ shown_byte b }
{
    match b {
        32..=126 => b,
        _ => b'?',
    }
}

fn put_shown(page: &mut Page<'_>, bytes: &[u8])
    ensures { Puts (map shown_byte bytes.now) page.old page.new }
{
    for byte in bytes {
        page.put(shown_byte(*byte));
    }
}

// A word, cut at 200 bytes.
pub fn put_word(page: &mut Page<'_>, word: &[u8])
    ensures { Puts (shown word.now) page.old page.new }
{
    if word.len() <= 200 {
        return put_shown(page, word);
    }
    put_shown(page, &word[..200])
}

// A word with a text before it and one after it.
fn put_around(page: &mut Page<'_>, before: &[u8], word: &[u8], after: &[u8])
    ensures { Puts (around before.now word.now after.now) page.old page.new }
{
    page.put_all(before);
    put_word(page, word);
    page.put_all(after)
}

fn put_allowed(page: &mut Page<'_>, named: usize)
    ensures { Puts (allowed named) page.old page.new }
{
    if named == 1 {
        return page.put_all(b"the budget is 0 to 4294967295\n");
    }
    page.put_all(b"the space is 0 to 1048576 bytes\n")
}

// What is wrong with a number.
fn put_number_fault(page: &mut Page<'_>, named: usize, word: &[u8], why: &[u8])
    ensures { Puts (number_text named word.now why.now) page.old page.new }
{
    put_around(page, b"trim: ", word, why);
    put_allowed(page, named)
}

// What is wrong with the words, and with which of them.
fn put_fault(page: &mut Page<'_>, o: Order, word: &[u8])
    ensures { Puts (fault_text o word.now) page.old page.new }
{
    let Some(fault) = o.fault else {
        return;
    };
    let named = o.named;
    match fault {
        Fault::Unknown => put_around(page, b"trim: unknown word ", word, b": say trim --help\n"),
        Fault::Superfluous => put_around(
            page,
            b"trim: superfluous word ",
            word,
            b": say trim --help\n",
        ),
        Fault::NotANumber => put_number_fault(page, named, word, b" is not a number: "),
        Fault::TooLarge => put_number_fault(page, named, word, b" is too large: "),
        Fault::NoFile => page.put_all(b"trim: no file is named: say trim --help\n"),
        Fault::NoJob => page.put_all(b"trim: no job is named: say trim --help\n"),
        Fault::NoLemmas => page.put_all(
            b"trim: problem is of circuits, and no lemmas are named: add --lemmas FILE\n",
        ),
        Fault::NoLemmaFile => page.put_all(
            b"trim: no file is named after --lemmas: add the name of the lemma file\n",
        ),
        Fault::TwoInputs => page.put_all(
            b"trim: only one file can be standard input: name a file for the circuit or for the lemmas\n",
        ),
    }
}

pub fn fault_line(o: Order, word: &[u8], out: &mut [u8]) -> usize
    ensures { Holds out.old (fault_text o word.now) out.new result }
{
    let mut page = Page::new(out);
    put_fault(&mut page, o, word);
    page.end
}

// The start of a line that ends in the system's own words.
pub fn not_opened(word: &[u8], out: &mut [u8]) -> usize
    ensures { Holds out.old (not_opened word.now) out.new result }
{
    let mut page = Page::new(out);
    put_around(&mut page, b"trim: cannot open ", word, b"");
    page.end
}

pub fn not_read(word: &[u8], out: &mut [u8]) -> usize
    ensures { Holds out.old (not_read word.now) out.new result }
{
    let mut page = Page::new(out);
    put_around(&mut page, b"trim: cannot read ", word, b"");
    page.end
}

// A circuit that was read as a problem file.
pub fn circuit_alone(word: &[u8], out: &mut [u8]) -> usize
    ensures { Holds out.old (circuit_alone word.now) out.new result }
{
    let mut page = Page::new(out);
    put_around(
        &mut page,
        b"trim: ",
        word,
        b" is a circuit, and its lemmas are missing: add --lemmas FILE\n",
    );
    page.end
}

pub fn version_line(out: &mut [u8]) -> usize
    ensures { Holds out.old version_text out.new result }
{
    let mut page = Page::new(out);
    page.put_all(b"trim 1.0\n");
    page.end
}

pub fn help_text(out: &mut [u8]) -> usize
    ensures { Holds out.old help_text out.new result }
{
    let mut page = Page::new(out);
    page.put_all(
        b"Of a model checker's candidate lemmas, trim picks the few that carry the safety argument.\n\n  \
        trim check FILE                    whether FILE is a problem file, and its size\n  \
        trim largest FILE [BUDGET]         the one inductive set that contains all others\n  \
        trim one FILE [BUDGET]             a minimal safe inductive set\n  \
        trim list FILE [BUDGET [SPACE]]    all minimal safe inductive sets, in order\n  \
        trim JOB CIRCUIT --lemmas LEMMAS   the same of a circuit and its candidate lemmas\n  \
        trim problem CIRCUIT --lemmas LEMMAS\n                                     \
        the problem file that they make, to standard output\n  \
        trim --help                        this text\n  \
        trim --version                     the version\n\n\
        FILE      a problem file; - is standard input\n\
        CIRCUIT   a circuit in ASCII AIGER (aag, of 2007 or 1.9); - is standard input\n\
        LEMMAS    a lemma a line: numbers of latches, counted from 1, with - before one that is negated, and\n          \
        a 0 at the end; - is standard input. --lemmas LEMMAS stands anywhere after the job\n\
        BUDGET    how many decisions may be made, 0 to 4294967295; 1000000 where none is given\n\
        SPACE     how many bytes the sets of a listing may take, one for each candidate in each set,\n          \
        0 to 1048576; 65536 where none is given\n\
        --marks   anywhere after largest, one or list: digits alone, 1 for a candidate that is in the\n          \
        set and 0 for one that is not, a line for each set\n\n\
        Answers go to standard output; refusals, and what is wrong with the words, to standard error.\n",
    );
    page.end
}
