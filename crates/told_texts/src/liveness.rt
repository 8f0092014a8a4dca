// 15 in plain words.
ghost use Rattle.text.specs.Page.{Holds};
ghost use Rattle.told_texts.specs.Liveness.{liveness_line};

use text::Page;
use text_faults::liveness::Liveness;
use usage::put_word;

// 15 on a line: the circuit by its name, and how many justice and fairness properties it has.
pub fn liveness_line(name: &[u8], live: Liveness, out: &mut [u8]) -> usize
    ensures { Holds out.old (liveness_line name.now live) out.new result }
{
    let mut page = Page::new(out);
    page.put_all(b"refusal 15: the circuit ");
    put_word(&mut page, name);
    page.put_filled(
        b": justice properties: #, fairness constraints: #, but liveness is not read: take s_eventually and all other liveness properties out of the design\n",
        &[live.justice as u64, live.fairness as u64],
    );
    page.end
}
