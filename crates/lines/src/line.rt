// Lines of numbers.
ghost use Rattle.std.specs.Prelude.{◌≡◌, ◌<◌, ◌≤◌, length, true, IfSome};
ghost use Rattle.meaning.specs.Lines.{ended, next_line};
ghost use Rattle.lines.specs.Past.{line_past};
ghost use Rattle.lines.specs.PastLaws.{PastNumber};

use crate::number::number_at;

// The place past a number and the byte after it, where that byte is this one.
fn past_number(text: &[u8], at: usize, byte: u8) -> Option<usize>
    requires { at ≤ length text.now }
    ensures { PastNumber text.now at byte result }
{
    let x = number_at(text, at);
    let end = at + x.digits.len();
    if end == at || text.len() <= end || text[end] != byte {
        return None;
    }
    Some(end + 1)
}

// Where the line after one of so many numbers starts; none where the line at this place is not of so many numbers, or not ended.
pub fn line_past(text: &[u8], at: usize, width: usize) -> Option<usize>
    requires at_in_bounds { at ≤ length text.now }
    requires le_width { 1 ≤ width }
    ensures { (result ≡ line_past width text.now at) × IfSome result (λ next. next ≤ length text.now) }
{
    let mut p = at;
    for _ in 1..width {
        p = past_number(text, p, b' ')?;
    }
    past_number(text, p, b'\n')
}

// Where the line after one that is ended starts.
pub fn next_line(text: &[u8], at: usize) -> usize
    requires at_in_bounds { at ≤ length text.now }
    requires at_value { ended text.now at ≡ true }
    ensures { (result ≡ next_line text.now at) × (result ≤ length text.now) × (at < result) }
{
    for p in at..text.len() {
        if text[p] == b'\n' {
            return p + 1;
        }
    }
    text.len()
}
