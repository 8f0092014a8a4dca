// One line of a lemma text: signed latch numbers closed by 0.
ghost use Rattle.std.specs.Prelude.{◌≡◌, ◌<◌, ◌≤◌, length};
ghost use Rattle.lemma_text.specs.Words.{WordAt, digits_start};
ghost use Rattle.lemma_text.specs.Line.{line_from};

use lines::number::{Number, number_at};

// Where the line after a lemma starts, and how many literals the lemma has.
#[derive(Clone, Copy)]
pub struct Line {
    pub past: usize,
    pub count: usize,
}

// A word: where its digits start, after its '-' if it has one, and they.
#[derive(Clone, Copy)]
pub struct Word<'a> {
    pub start: usize,
    pub number: Number<'a>,
}

// Where the digits of the word at a place start.
fn digits_start(text: &[u8], at: usize) -> usize
    requires { at ≤ length text.now }
    ensures { (result ≡ digits_start text.now at) × (result ≤ length text.now) }
{
    if at < text.len() && text[at] == b'-' {
        return at + 1;
    }
    at
}

// The word that starts at a place.
pub fn word_at(text: &[u8], at: usize) -> Word<'_>
    requires { at ≤ length text.now }
    ensures { WordAt text.now at result }
{
    let start = digits_start(text, at);
    let number = number_at(text, start);
    Word { start, number }
}

// The line at a place, word by word; none where it is no lemma.
pub fn line_at(text: &[u8], at: usize, latches: usize) -> Option<Line>
    requires at_in_bounds { at ≤ length text.now }
    requires latches_bound { latches < 18446744073709551610 }
    ensures { result ≡ line_from latches text.now 0 at }
{
    let mut p = at;
    let mut count: usize = 0;
    // A walk by a place that jumps, from word to word; the literals counted are the answer, and no index.
    loop {
        let x = word_at(text, p);
        let end = x.start + x.number.digits.len();
        if text.len() <= end || x.number.digits.is_empty() {
            return None;
        }
        match text[end] {
            b'\n' => {
                if p < x.start || 0 < x.number.value {
                    return None;
                }
                return Some(Line {
                    past: end + 1,
                    count,
                });
            }
            b' ' => {
                if !(1..=latches).contains(&x.number.value) {
                    return None;
                }
                p = end + 1;
                count += 1;
            }
            _ => return None,
        }
    }
}
