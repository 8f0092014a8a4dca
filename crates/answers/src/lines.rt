// The lines that are told of a job's outcome, each on a page.
ghost use Rattle.std.specs.Prelude.{◌≡◌, eqb};
ghost use Rattle.problem.specs.Answers.{report_of};
ghost use Rattle.text.specs.Page.{Holds};
ghost use Rattle.answers.specs.Lines.{k_of, is_list, has_head, head_text, marking_sets, sets_told, set_text, error_text};

use problem::Report;
use text::row_end;
use told::Job;

// k of a file.
#[tactic(auto, unfolding(crate::specs::Lines::k_of))]
pub fn k_of(file: &[u8]) -> usize
    ensures { result ≡ k_of file.now }
{
    problem::check(file).k
}

fn is_list(job: Job) -> bool
    ensures { result ≡ is_list job }
{
    matches!(job, Job::List)
}

// An answer has a head line, and so has a listing of an accepted file, refused or not. The numbers are those of the C interface's report.
#[tactic(auto, unfolding(crate::specs::Lines::has_head))]
fn has_head(list: bool, number: u32) -> bool
    ensures { result ≡ has_head list number }
{
    number == 0 || (list && 10 <= number)
}

// The head line.
pub fn head_text(
    marks: bool,
    job: Job,
    file: &[u8],
    r: Report,
    lent: &[u8],
    page: &mut [u8],
) -> usize
    ensures { Holds page.old (head_text marks job file.now (report_of r) lent.now) page.new result }
{
    if marks || !has_head(is_list(job), r.number) {
        return 0;
    }
    let k = k_of(file);
    let end = row_end(lent.len(), 0, k);
    told::answer_line(job, r, k, told::count_marks(&lent[..end]), page)
}

// One where a marking job answered.
fn marking_sets(number: u32) -> usize
    ensures { result ≡ marking_sets (eqb number 0) }
{
    if number == 0 { 1 } else { 0 }
}

// How many sets are told.
pub fn sets_told(job: Job, r: Report) -> usize
    ensures { result ≡ sets_told job (report_of r) }
{
    match job {
        Job::Check => 0,
        Job::Largest | Job::One => marking_sets(r.number),
        Job::List => r.rows,
    }
}

// Before the lemmas of a set: its marks alone, or for a listing its number.
#[tactic(auto, unfolding(crate::specs::Lines::set_text))]
pub fn set_text(marks: bool, job: Job, number: usize, set: &[u8], page: &mut [u8]) -> usize
    ensures { Holds page.old (set_text marks job number set.now) page.new result }
{
    if marks {
        return told::marks_line(set, page);
    }
    if !is_list(job) {
        return 0;
    }
    told::set_line(number, told::count_marks(set), set.len(), page)
}

// What goes to standard error.
#[tactic(auto, unfolding(crate::specs::Lines::error_text))]
pub fn error_text(
    job: Job,
    file: &[u8],
    r: Report,
    budget: u32,
    space: usize,
    page: &mut [u8],
) -> usize
    ensures { Holds page.old (error_text job file.now (report_of r) budget space) page.new result }
{
    if r.number == 0 {
        return 0;
    }
    told::refusal_line(job, file, r, budget, space, page)
}
