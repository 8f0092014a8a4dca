// Which limit two texts are over, in plain words.
ghost use Rattle.std.specs.Prelude.{◌≡◌};
ghost use Rattle.text.specs.Page.{Holds};
ghost use Rattle.text.specs.Pages.{Puts};
ghost use Rattle.told_texts.specs.Limits.{of_lemmas, limit_head, limit_text, limit_line};

use text::Page;
use text_faults::limits::Limit;
use usage::put_word;

// Whether a limit is one of the lemma text.
fn of_lemmas(limit: Option<Limit>) -> bool
    ensures { result ≡ of_lemmas limit }
{
    matches!(
        limit,
        Some(Limit::LongLemmas | Limit::Lemmas(_) | Limit::LongLemma(_, _))
    )
}

// Which text.
fn put_head(page: &mut Page<'_>, of: bool, circuit: &[u8], lemmas: &[u8])
    ensures { Puts (limit_head of circuit.now lemmas.now) page.old page.new }
{
    if of {
        page.put_all(b"refusal 14: the lemmas ");
        return put_word(page, lemmas);
    }
    page.put_all(b"refusal 14: the circuit ");
    put_word(page, circuit)
}

// What is over the limit.
fn put_limit(page: &mut Page<'_>, limit: Option<Limit>)
    ensures { Puts (limit_text limit) page.old page.new }
{
    let Some(limit) = limit else {
        return page.put_all(b": no limit that this program knows\n");
    };
    match limit {
        Limit::LongCircuit => page.put_all(b": more than 65536 bytes\n"),
        Limit::LongLemmas => page.put_all(b": more than 65536 bytes\n"),
        Limit::NoLatch => page.put_all(b": no latch, so it has no state\n"),
        Limit::Latches(met) => page.put_filled(
            b": latches: #, but 96 are the most\n",
            &[met as u64],
        ),
        Limit::Width(inputs, gates) => page.put_filled(
            b": inputs: #, gates: #, but 320 of both together are the most\n",
            &[inputs as u64, gates as u64],
        ),
        Limit::NoBad => page.put_all(
            b": no bad literal and no output, so nothing says which states are bad: write an assert, or give the top module one output port that is 1 in a bad state\n",
        ),
        Limit::Outputs(met) => page.put_filled(
            b": outputs: #, but one is wanted, which is 1 in a bad state: keep that output port alone in the top module\n",
            &[met as u64],
        ),
        Limit::Bads(met) => page.put_filled(
            b": bad literals: #, but one is wanted: join the asserts into one, assert (a && b)\n",
            &[met as u64],
        ),
        Limit::Both(outputs, bads) => page.put_filled(
            b": outputs: #, bad literals: #, but one literal in all is wanted: keep one assert and no output port of the top module, or one output port and no assert\n",
            &[outputs as u64, bads as u64],
        ),
        Limit::Lemmas(met) => page.put_filled(
            b": lines: #, but 128 lemmas are the most\n",
            &[met as u64],
        ),
        Limit::LongLemma(line, met) => page.put_filled(
            b": literals on line #: #, but 64 are the most\n",
            &[line as u64, met as u64],
        ),
        Limit::Clauses => page.put_all(
            b": more than 4096 clauses in Init, Tr, Bad and the lemmas together: each constraint (assume) adds one to Tr and one to Bad, each gate up to three to both; have fewer of them\n",
        ),
    }
}

// 14 on a line, with the text that is over the limit, by its name.
pub fn limit_line(circuit: &[u8], lemmas: &[u8], limit: Option<Limit>, out: &mut [u8]) -> usize
    ensures { Holds out.old (limit_line circuit.now lemmas.now limit) out.new result }
{
    let mut page = Page::new(out);
    put_head(&mut page, of_lemmas(limit), circuit, lemmas);
    put_limit(&mut page, limit);
    page.end
}
