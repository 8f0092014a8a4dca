// Where lines are: the number of a line, the line after one, a line so many lines on.
ghost use Rattle.std.specs.Prelude.{◌≡◌, ◌<◌, ◌≤◌, length};
ghost use Rattle.text_faults.specs.Places.{count_of, line_number, after_line, skip};

use symbols::line::line_end;

// How many bytes are this one.
pub fn count_byte(bytes: &[u8], b: u8) -> usize
    ensures { (result ≡ count_of b bytes.now) × (result ≤ length bytes.now) }
{
    bytes.iter().filter(|a| **a == b).count()
}

// The number of the line at a place, counted from 1.
#[tactic(auto, unfolding(crate::specs::Places::line_number))]
pub fn line_number(text: &[u8], at: usize) -> usize
    ensures { result ≡ line_number text.now at }
{
    if text.len() <= at {
        return count_byte(text, b'\n') + 1;
    }
    count_byte(&text[..at], b'\n') + 1
}

// Where the next line starts; the end of the text, where there is none.
#[tactic(auto, using(crate::specs::Places::after_closed, crate::specs::Places::after_open))]
pub fn after_line(text: &[u8], at: usize) -> usize
    requires { at < length text.now }
    ensures { (result ≡ after_line text.now at) × (result ≤ length text.now) × (at < result) }
{
    let end = line_end(text, at);
    if end < text.len() {
        return end + 1;
    }
    end
}

// The line so many lines on.
#[tactic(auto, using(crate::specs::Places::skip_end), unfolding(crate::specs::Places::skip))]
pub fn skip(text: &[u8], at: usize, count: usize) -> usize
    requires { at ≤ length text.now }
    ensures { (result ≡ skip count text.now at) × (result ≤ length text.now) }
{
    let mut p = at;
    for done in 0..count {
        if text.len() <= p {
            return p;
        }
        p = after_line(text, p);
    }
    p
}
