// One symbol line: its form, its position, and whether an earlier line names that position too.
ghost use Rattle.std.specs.Prelude.{◌≡◌, List, ◌<◌, ◌≤◌, length};
ghost use Rattle.meaning.specs.Clauses.{any};
ghost use Rattle.meaning.specs.Lines.{line_at};
ghost use Rattle.meaning.specs.CircuitText.{Symbol, positions, symbol_of, same_symbol, symbol_right};
ghost use Rattle.lines.specs.Numbers.{huge};
ghost use Rattle.symbols.specs.Symbols.{header_from, Small, named_right, Named, Earlier, Listed, symbol};

use crate::Counts;
use crate::line::Line;
use lines::line::next_line;
use lines::number::number_at;

// A position of a letter.
#[derive(Clone, Copy, PartialEq, Eq)]
struct Position {
    letter: u8,
    place: usize,
}

// i, l, o, b, c, j or f has so many positions; any other letter has none.
fn positions(counts: Counts, letter: u8) -> usize
    requires { Small counts }
    ensures { (result ≡ positions (header_from counts) letter) × (result < huge) }
{
    match letter {
        b'i' => counts.i,
        b'l' => counts.l,
        b'o' => counts.o,
        b'b' => counts.b,
        b'c' => counts.c,
        b'j' => counts.j,
        b'f' => counts.f,
        _ => 0,
    }
}

// The position that a line names.
fn position_at(text: &[u8], at: usize) -> Position
    requires at_in_bounds { at < length text.now }
    requires named { Named text.now at }
    ensures { symbol result.letter result.place ≡ symbol_of (line_at text.now at) }
{
    Position {
        letter: text[at],
        place: number_at(text, at + 1).value,
    }
}

impl Position {
    // Whether a line names this position. Its number is read only where its letter is the same.
    fn is_named(self, text: &[u8], at: usize) -> bool
        requires at_in_bounds { at < length text.now }
        requires named { Named text.now at }
        ensures { result ≡ same_symbol (symbol self.letter self.place) (symbol_of (line_at text.now at)) }
    {
        self.letter == text[at] && self == position_at(text, at)
    }
}

impl Line<'_> {
    // A letter, at once a position below I, L, O, B, C, J or F, one space, a name of one byte at least.
    pub fn named_right(&self, counts: Counts) -> bool
        requires { Small counts }
        ensures { result ≡ named_right (header_from counts) (line_at self.now.text.now self.now.at) }
    {
        if self.end == self.at {
            return false;
        }
        let x = number_at(self.text, self.at + 1);
        let past = self.at + 1 + x.digits.len();
        if self.end <= past + 1 {
            return false;
        }
        if self.text[past] != b' ' {
            return false;
        }
        if past == self.at + 1 {
            return false;
        }
        x.value < positions(counts, self.text[self.at])
    }

    // Whether one of the lines from the first on names the position that this one names.
    fn named_before(&self, first: usize) -> bool
        requires named { Named self.now.text.now self.now.at }
        requires listed { Listed self.now.text.now first self.now.at }
        ensures { (before : List Symbol) → Earlier self.now.text.now first before self.now.at → result ≡ any (same_symbol (symbol_of (line_at self.now.text.now self.now.at))) before }
    {
        let named = position_at(self.text, self.at);
        let mut p = first;
        // A walk from line to line, and so by places that jump: nothing is counted by hand.
        while p < self.at {
            if named.is_named(self.text, p) {
                return true;
            }
            p = next_line(self.text, p);
        }
        false
    }

    // A symbol line is right: its form, and, where that is judged, no earlier line names its position.
    pub fn is_right(&self, counts: Counts, judged: bool, first: usize) -> bool
        requires small { Small counts }
        requires listed { Listed self.now.text.now first self.now.at }
        ensures { (before : List Symbol) → Earlier self.now.text.now first before self.now.at → result ≡ symbol_right judged (header_from counts) before (line_at self.now.text.now self.now.at) }
    {
        if !self.named_right(counts) {
            return false;
        }
        !judged || !self.named_before(first)
    }
}
