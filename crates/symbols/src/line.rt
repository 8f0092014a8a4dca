// Where a line ends, a line that a newline ends, and the line that begins the comment.
ghost use Rattle.std.specs.Prelude.{◌≡◌, ◌<◌, ◌≤◌, length, is_some, IfSome};
ghost use Rattle.meaning.specs.Lines.{line_at, ended};
ghost use Rattle.meaning.specs.CircuitText.{begins_comment};
ghost use Rattle.symbols.specs.Symbols.{LineTo};

// A line of a text, from its first byte to the newline that ends it.
#[derive(Clone, Copy)]
pub struct Line<'a> {
    pub text: &'a [u8],
    pub at: usize,
    pub end: usize,
    pub ghost line_to: { LineTo text.now at end },
    pub ghost closed: { end < length text.now },
}

// The place of the newline after a line, or the end of the text.
pub fn line_end(text: &[u8], at: usize) -> usize
    requires { at ≤ length text.now }
    ensures { LineTo text.now at result }
{
    for p in at..text.len() {
        if text[p] == b'\n' {
            return p;
        }
    }
    text.len()
}

// The line that starts at a place; none where the text ends before it does.
pub fn line_from(text: &[u8], at: usize) -> Option<Line<'_>>
    requires { at ≤ length text.now }
    ensures is_ended { is_some result ≡ ended text.now at }
    ensures is_there { IfSome result (λ l. (l.text.now ≡ text.now) × (l.at ≡ at)) }
{
    let end = line_end(text, at);
    if text.len() <= end {
        return None;
    }
    Some(Line { text, at, end })
}

impl Line<'_> {
    // A line 'c'.
    pub fn begins_comment(&self) -> bool
        ensures { result ≡ begins_comment (line_at self.now.text.now self.now.at) }
    {
        self.end == self.at + 1 && self.text[self.at] == b'c'
    }
}
