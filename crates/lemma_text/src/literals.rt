// The literals of a lemma, written as they stand on its line.
ghost use Rattle.std.specs.Prelude.{◌≤◌, length};
ghost use Rattle.records.specs.Puts.{Puts, HasRoom};
ghost use Rattle.lemma_text.specs.Written.{Writable, lemma_bytes};

use crate::line::word_at;
use records::Records;

// Writes them.
pub fn put_literals(text: &[u8], from: usize, out: &mut Records<'_>)
    requires from_in_bounds { from ≤ length text.now }
    requires writable { Writable text.now from }
    requires from_in_bounds_2 { HasRoom (lemma_bytes text.now from) out.old }
    ensures { Puts (lemma_bytes text.now from) out.old out.new }
{
    let mut p = from;
    // A walk by a place that jumps, from word to word: no index is counted.
    loop {
        let x = word_at(text, p);
        let end = x.start + x.number.digits.len();
        if text[end] == b'\n' {
            return;
        }
        out.put_literal(p < x.start, x.number.value);
        p = end + 1;
    }
}
