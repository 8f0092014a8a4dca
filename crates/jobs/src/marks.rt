// The two marking jobs: any file, any budget, any length of lent bytes.
ghost use Rattle.std.specs.Prelude.{◌≡◌, ◌≤◌, length};
ghost use Rattle.std.specs.Fn.{FnOnceReturnsAt};
ghost use Rattle.meaning.specs.File.{read};
ghost use Rattle.meaning.specs.Calls.{largest_call, one_call, on_reading};
ghost use Rattle.meaning.specs.Rules;
ghost use Rattle.sets.specs.Asks.{asks_of};
ghost use Rattle.jobs.specs.Outcome.{outcome_of, reported_as};
ghost use Rattle.jobs.specs.Leaving.{Job, left_by, WholeIs, Does};

use problem::Report;
use rows::row::write_row;
use search::{Asked, Spent};
use sets::picks::{Judged, largest, single};

// What a job returns: its number, 0 where it answered, its place, the decisions counted and, for a listing, the rows kept; no n, m or k.
pub fn reported(number: u32, place: usize, decisions: u64, rows: usize) -> Report
    ensures { result ≡ reported_as number place decisions rows }
{
    Report {
        number,
        place,
        decisions: decisions as usize,
        rows,
        n: 0,
        m: 0,
        k: 0,
    }
}

// What a marking job leaves: 10 where the budget was used up, 11 where the largest set isn't safe, and else the first k bytes.
fn leave(of: &Asked<'_>, found: Result<Judged, Spent>, budget: u32, marks: &mut [u8]) -> Report
    requires { of.now.problem.k ≤ length marks.old }
    ensures { outcome_of result marks.new ≡ left_by of.now.problem.k budget found marks.old }
{
    let Ok(x) = found else {
        return reported(10, 0, u64::from(budget), 0);
    };
    if !x.safe {
        return reported(11, 0, x.used, 0);
    }
    write_row(marks, x.set, of.problem.k);
    reported(0, 0, x.used, 0)
}

// A marking job: 9 where the lent bytes are fewer than k, and else what was found for the problem that stands in the file.
fn marked<F: FnOnce(&Asked<'_>) -> Result<Judged, Spent>>(
    file: &[u8],
    budget: u32,
    marks: &mut [u8],
    find: F,
) -> Report
    requires { F.IsAlwaysCallable find }
    ensures { (job : Job) → Does budget marks.old job (FnOnceReturnsAt F.FnOnce find) → outcome_of result marks.new ≡ on_reading (read file.now) job marks.old }
{
    let read = problem::read_problem(file);
    match read {
        Ok(problem) => {
            if marks.len() < problem.k {
                return reported(9, 0, 0, 0);
            }
            let of = Asked { file, problem };
            leave(&of, find(&of), budget, marks)
        }
        Err(r) => Report::from(r),
    }
}

// The largest set, whose safety is not asked and doesn't count.
fn whole(of: &Asked<'_>, budget: u32) -> Result<Judged, Spent>
    ensures { WholeIs of.now.problem.k budget (Rules.largest (asks_of of.now) of.now.problem.k) result }
{
    let top = largest(of, u64::from(budget))?;
    Ok(Judged {
        set: top.set,
        used: top.used,
        safe: true,
    })
}

// Mark the largest inductive subset.
pub fn mark_largest(file: &[u8], budget: u32, marks: &mut [u8]) -> Report
    ensures { outcome_of result marks.new ≡ largest_call file.now budget marks.old }
{
    marked(file, budget, marks, |of| whole(of, budget))
}

// Mark one minimal safe inductive subset.
pub fn mark_one(file: &[u8], budget: u32, marks: &mut [u8]) -> Report
    ensures { outcome_of result marks.new ≡ one_call file.now budget marks.old }
{
    marked(file, budget, marks, |of| single(of, u64::from(budget)))
}
