// Answers: the head line of an answer, the line before a row of a listing, and marks in digits.
ghost use Rattle.std.specs.Prelude.{◌≡◌};
ghost use Rattle.problem.specs.Answers.{report_of};
ghost use Rattle.text.specs.Page.{Holds};
ghost use Rattle.text.specs.Pages.{Puts};
ghost use Rattle.told.specs.Answers.{answer_line, list_line, set_line, marks_line, marked, word};

use problem::Report;
use text::{Page, put_row};

// Which job was asked. `words::Job` has other words besides, and neither crate sees the other: `answers::job_told` ties them by a match.
#[derive(Clone, Copy)]
pub enum Job {
    Check,
    Largest,
    One,
    List,
}

// The word of a listing, by its report's number, which is the C interface's.
fn put_word(page: &mut Page<'_>, number: u32)
    ensures { Puts (word number) page.old page.new }
{
    match number {
        0 => page.put_all(b"complete"),
        10 => page.put_all(b"spent"),
        11 => page.put_all(b"none"),
        12 => page.put_all(b"room"),
        _ => page.put_all(b"refused"),
    }
}

// The head line of a listing: its word, then rows, candidates and decisions.
fn put_list_line(page: &mut Page<'_>, r: Report, k: usize)
    ensures { Puts (list_line (report_of r) k) page.old page.new }
{
    put_word(page, r.number);
    page.put_filled(
        b": minimal safe inductive sets found: # (candidates: #, decisions: #)\n",
        &[r.rows as u64, k as u64, r.decisions as u64],
    );
}

// The head line of an answer: k is the number of candidates, and so many are kept.
pub fn answer_line(job: Job, r: Report, k: usize, kept: usize, out: &mut [u8]) -> usize
    ensures { Holds out.old (answer_line job (report_of r) k kept) out.new result }
{
    let mut page = Page::new(out);
    match job {
        Job::Check => page.put_filled(
            b"accepted: # state variables, # inputs and helpers, # candidate lemmas\n",
            &[r.n as u64, r.m as u64, r.k as u64],
        ),
        Job::Largest => page.put_filled(
            b"largest inductive set: # of # candidates (decisions: #)\n",
            &[kept as u64, k as u64, r.decisions as u64],
        ),
        Job::One => page.put_filled(
            b"minimal safe inductive set: # of # candidates (decisions: #)\n",
            &[kept as u64, k as u64, r.decisions as u64],
        ),
        Job::List => put_list_line(&mut page, r, k),
    }
    page.end
}

// Before each row of a listing; rows are counted from 1.
pub fn set_line(row: usize, kept: usize, k: usize, out: &mut [u8]) -> usize
    ensures { Holds out.old (set_line row kept k) out.new result }
{
    let mut page = Page::new(out);
    page.put_filled(
        b"set #: # of # candidates\n",
        &[row as u64, kept as u64, k as u64],
    );
    page.end
}

// Marks in digits, on a line.
pub fn marks_line(marks: &[u8], out: &mut [u8]) -> usize
    ensures { Holds out.old (marks_line marks.now) out.new result }
{
    let mut page = Page::new(out);
    put_row(&mut page, marks);
    page.end
}

// How many are marked.
pub fn count_marks(marks: &[u8]) -> usize
    ensures { result ≡ marked marks.now }
{
    marks.iter().filter(|mark| **mark == 1).count()
}
