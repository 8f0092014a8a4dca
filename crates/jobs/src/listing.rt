// The listing job: the largest set, its safety, and then the nodes.
ghost use Rattle.std.specs.Prelude.{◌≡◌, ◌≤◌};
ghost use Rattle.meaning.specs.Rules;
ghost use Rattle.meaning.specs.Calls;
ghost use Rattle.meaning.specs.Calls.{list_call};
ghost use Rattle.sets.specs.Asks.{asks_of};
ghost use Rattle.jobs.specs.Outcome.{outcome_of};
ghost use Rattle.jobs.specs.ListingCall.{report_at};

use crate::marks::reported;
use branches::nodes::node;
use problem::{Report, read_problem};
use rows::found::{Progress, Stop};
use search::{Asked, Marks};
use sets::members::count;
use sets::picks::largest_judged;

// Complete, or ended by the budget (10) or by a row that doesn't fit (12): in both the rows already found are kept.
fn finish(end: Result<Progress, Stop>, budget: u64) -> Report
    ensures { result ≡ report_at budget end }
{
    match end {
        Ok(at) => reported(0, 0, at.used, at.rows),
        Err(Stop::Spent(rows)) => reported(10, 0, budget, rows),
        Err(Stop::Full(at)) => reported(12, 0, at.used, at.rows),
    }
}

// The listing of a problem that stands in its file: the largest set; 11 where it isn't safe; then the node (empty, largest set).
fn list_placed(of: &Asked<'_>, budget: u64, rows: &mut [u8]) -> Report
    ensures { outcome_of result rows.new ≡ Calls.listed of.now.problem.k budget (Rules.listing (asks_of of.now) of.now.problem.k) rows.old }
{
    let Ok(top) = largest_judged(of, budget) else {
        return reported(10, 0, budget, 0);
    };
    if !top.safe {
        return reported(11, 0, top.used, 0);
    }
    let fuel = count(&top.set.on[..of.problem.k]) + 1;
    let start = Progress {
        rows: 0,
        used: top.used,
    };
    let end = node(of, fuel, Marks::none(), top.set, rows, start, budget);
    finish(end, budget)
}

// The listing: every file, every budget and any space for rows. A refused file has 0 decisions and writes nothing.
pub fn list_all(file: &[u8], budget: u32, rows: &mut [u8]) -> Report
    ensures { outcome_of result rows.new ≡ list_call file.now budget rows.old }
{
    let read = read_problem(file);
    match read {
        Ok(problem) => list_placed(&Asked { file, problem }, u64::from(budget), rows),
        Err(r) => Report::from(r),
    }
}
