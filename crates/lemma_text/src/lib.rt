// The lemma text, read line by line in place: the place of its first fault, or how many lemmas it has and how long the longest is; and its
// lemmas written as records.
#![tactic(auto)]

ghost use Rattle.std.specs.Prelude.{◌≡◌, ◌<◌, ◌≤◌, IsOkAnd};
ghost use Rattle.meaning.specs.LemmaText.{read_lemma_text};
ghost use Rattle.lemma_text.specs.Rest.{summary_of, lemmas_of};
ghost use Rattle.meaning.specs.Filed.{clause_records};
ghost use Rattle.records.specs.Puts.{Puts, HasRoom};

pub mod line;
pub mod literals;

use line::line_at;
use lines::fault::Fault;
use literals::put_literals;
use records::Records;

// How many lemmas there are, and the most literals that one of them has.
#[derive(Clone, Copy)]
pub struct Lemmas {
    pub count: usize,
    pub longest: usize,
}

// What a text over so many latches holds, in one pass; or the first line at fault.
pub fn read_lemmas(text: &[u8], latches: usize) -> Result<Lemmas, Fault>
    requires { latches < 18446744073709551610 }
    ensures { result ≡ summary_of (read_lemma_text latches text.now) }
{
    let mut at: usize = 0;
    let mut count: usize = 0;
    let mut longest: usize = 0;
    // A walk by a place that jumps, from line to line; the lemmas counted are the answer, and no index.
    while at < text.len() {
        let line = line_at(text, at, latches).ok_or(Fault { at })?;
        longest = longest.max(line.count);
        count += 1;
        at = line.past;
    }
    Ok(Lemmas { count, longest })
}

// Writes the lemmas of a text without a fault as records.
pub fn write_lemmas(text: &[u8], latches: usize, out: &mut Records<'_>)
    requires text_value { IsOkAnd (summary_of (read_lemma_text latches text.now)) (λ l. l.longest ≤ 64) }
    requires latches_bound { latches ≤ 96 }
    requires text_in_bounds { HasRoom (clause_records 5 (lemmas_of (read_lemma_text latches text.now))) out.old }
    ensures { Puts (clause_records 5 (lemmas_of (read_lemma_text latches text.now))) out.old out.new }
{
    let mut from: usize = 0;
    // A walk by a place that jumps, from line to line: no index is counted.
    while let Some(line) = line_at(text, from, latches) {
        out.put_head(2 * line.count, 5);
        put_literals(text, from, out);
        from = line.past;
    }
}
