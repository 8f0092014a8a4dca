// A refusal in plain words: its number, its place, and what stands there.
ghost use Rattle.std.specs.Prelude.{◌≡◌};
ghost use Rattle.problem.specs.Answers.{report_of};
ghost use Rattle.text.specs.Page.{Holds};
ghost use Rattle.text.specs.Pages.{Puts};
ghost use Rattle.told.specs.Refusals.{head_text, clause_place, where_text, larger, kept_text, spent_text, reason_text, refusal_line};

use crate::answers::Job;
use fault_texts::put_fault;
use faults::places::around;
use faults::wrong::fault_of;
use problem::Report;
use text::Page;

// A refusal's number, and its place where it speaks of the file.
fn put_head(page: &mut Page<'_>, number: u32, place: usize)
    ensures { Puts (head_text number place) page.old page.new }
{
    if number < 9 {
        return page.put_filled(b"refusal # at byte #", &[number as u64, place as u64]);
    }
    page.put_filled(b"refusal #", &[number as u64])
}

// Which clause: its kind, which is whatever number stands in the record's head, and its position among those of its kind.
fn put_clause_place(page: &mut Page<'_>, kind: usize, position: usize)
    ensures { Puts (clause_place kind position) page.old page.new }
{
    match kind {
        2 => page.put_filled(b", in the Init clause at position #: ", &[position as u64]),
        3 => page.put_filled(b", in the Tr clause at position #: ", &[position as u64]),
        4 => page.put_filled(b", in the Bad clause at position #: ", &[position as u64]),
        5 => page.put_filled(b", in the lemma at position #: ", &[position as u64]),
        _ => page.put_filled(b", in a record of kind #: ", &[kind as u64]),
    }
}

// For a literal, the clause around it.
fn put_where(page: &mut Page<'_>, file: &[u8], number: u32, place: usize)
    ensures { Puts (where_text file.now number place) page.old page.new }
{
    if number != 6 {
        return page.put_all(b": ");
    }
    let s = around(file, place);
    put_clause_place(page, s.kind, s.position)
}

// A larger budget to try: ten times as large, up to the largest.
fn larger(budget: u32) -> u64
    ensures { result ≡ larger budget }
{
    if budget == 0 {
        return 1000000;
    }
    (10 * budget as u64).min(u32::MAX as u64)
}

// What a listing keeps, and the line's end.
fn put_kept(page: &mut Page<'_>, job: Job, rows: usize)
    ensures { Puts (kept_text job rows) page.old page.new }
{
    match job {
        Job::List => page.put_filled(b"; sets kept, the first of the list: #\n", &[rows as u64]),
        Job::Check | Job::Largest | Job::One => page.put_all(b"\n"),
    }
}

// 10: the budget is used up.
fn put_spent(page: &mut Page<'_>, budget: u32)
    ensures { Puts (spent_text budget) page.old page.new }
{
    if budget < u32::MAX {
        return page.put_filled(
            b"the budget was used up (decisions: #); try a larger one, for instance #",
            &[budget as u64, larger(budget)],
        );
    }
    page.put_filled(
        b"the budget was used up (decisions: #), and there is no larger one",
        &[budget as u64],
    )
}

// Why a job stopped: 9 to 12, a report's numbers, which are the C interface's.
fn put_reason(page: &mut Page<'_>, job: Job, r: Report, budget: u32, space: usize)
    ensures { Puts (reason_text job (report_of r) budget space) page.old page.new }
{
    match r.number {
        9 => page.put_all(b"fewer bytes were lent than there are candidates\n"),
        10 => {
            put_spent(page, budget);
            put_kept(page, job, r.rows)
        }
        11 => {
            page.put_filled(
                b"no subset of these candidates is safe and inductive (decisions: #). ",
                &[r.decisions as u64],
            );
            page.put_all(
                b"This speaks of these candidates only: it does not say that the loader is unsafe\n",
            )
        }
        12 => {
            page.put_filled(
                b"the next set does not fit the space (bytes: #); try a larger space",
                &[space as u64],
            );
            put_kept(page, job, r.rows)
        }
        _ => page.put_all(b"no refusal that this program knows\n"),
    }
}

// A refusal of a job, on a line: of a file, with a budget, and with so many bytes lent.
pub fn refusal_line(
    job: Job,
    file: &[u8],
    r: Report,
    budget: u32,
    space: usize,
    out: &mut [u8],
) -> usize
    ensures { Holds out.old (refusal_line job file.now (report_of r) budget space) out.new result }
{
    let mut page = Page::new(out);
    put_head(&mut page, r.number, r.place);
    put_where(&mut page, file, r.number, r.place);
    // A report has its refusal as the number that the C interface hands over.
    if r.number < 9 {
        put_fault(&mut page, fault_of(file, r.number, r.place));
    } else {
        put_reason(&mut page, job, r, budget, space);
    }
    page.end
}
