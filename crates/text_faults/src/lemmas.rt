// What is wrong with the line of a lemma text at a place.
ghost use Rattle.std.specs.Prelude.{◌≡◌, true, [], ◌∷◌, ◌<◌, ◌≤◌, length};
ghost use Rattle.meaning.specs.Lines.{ended, words, line_at};
ghost use Rattle.lemma_text.specs.Words.{WordAt, minus_at, with_sign};
ghost use Rattle.text_faults.specs.Lemmas.{last_cause, words_cause, lemma_cause};

use lemma_text::line::{Word, word_at};
use symbols::line::line_end;

// What is wrong. Words of a line are counted from 1.
#[derive(Clone, Copy)]
pub enum Cause {
    Open, // no newline ends it
    Word(usize), // this word is no number, with or without a '-' before it
    Inner(usize), // this number is 0, and the line goes on
    Over(usize), // this number is over L
    NoZero, // its last number is not 0, or has a '-'
}

// The last word of a line.
#[tactic(auto, using(crate::specs::LemmaLaws::empty_is, crate::specs::LemmaLaws::last_empty, crate::specs::LemmaLaws::last_signed, crate::specs::LemmaLaws::last_value, crate::specs::LemmaLaws::last_right))]
fn last_cause(text: &[u8], p: usize, x: &Word, j: usize) -> Option<Cause>
    requires { WordAt text.now p x.now }
    ensures { result ≡ last_cause j (with_sign (minus_at text.now p) x.now.number.digits.now) }
{
    if x.number.digits.is_empty() {
        return Some(Cause::Word(j));
    }
    if p < x.start || 0 < x.number.value {
        return Some(Cause::NoZero);
    }
    None
}

// The words of a line that is ended.
fn words_cause(text: &[u8], at: usize, latches: usize) -> Option<Cause>
    requires at_in_bounds { at ≤ length text.now }
    requires at_value { ended text.now at ≡ true }
    requires latches_bound { latches < 18446744073709551610 }
    ensures { result ≡ words_cause latches 1 (words (line_at text.now at)) }
{
    let mut p = at;
    // The words are counted by hand: a `for` over their numbers would need an end that the walk never comes to.
    let mut j: usize = 1;
    loop {
        let x = word_at(text, p);
        let end = x.start + x.number.digits.len();
        let b = text[end];
        if b == b'\n' {
            return last_cause(text, p, &x, j);
        }
        if b != b' ' || x.number.digits.is_empty() {
            return Some(Cause::Word(j));
        }
        if x.number.value == 0 {
            return Some(Cause::Inner(j));
        }
        if latches < x.number.value {
            return Some(Cause::Over(j));
        }
        p = end + 1;
        j += 1;
    }
}

// What is wrong with the line at a place, over so many latches, if anything is.
#[tactic(auto, using(symbols::specs::Walk::is_closed, symbols::specs::Walk::is_open, lines::specs::Past::not_ended), unfolding(crate::specs::Lemmas::lemma_cause))]
pub fn lemma_cause(text: &[u8], at: usize, latches: usize) -> Option<Cause>
    requires { latches < 18446744073709551610 }
    ensures { result ≡ lemma_cause latches text.now at }
{
    if text.len() <= at || text.len() <= line_end(text, at) {
        return Some(Cause::Open);
    }
    words_cause(text, at, latches)
}
