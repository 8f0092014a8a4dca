// The rows of a listing: where it stands, and a row that was found, put behind those before it or left out.
ghost use Rattle.std.specs.Prelude.{◌≡◌, ℕ, ◌≤◌, ◌<◌, ◌+◌, ◌*◌, ◌^◌, length};
ghost use Rattle.meaning.specs.Rules;
ghost use Rattle.sets.specs.Asks.{marks_at, marks_of, asks_of};
ghost use Rattle.rows.specs.ListingProgress.{Ready, FedBy, on_after, one_row};

use crate::row::write_row;
use search::{Answer, Asked, Marks, Spent};
use sets::questions::{Each, first_yes};

// Where a listing stands: the rows and the decisions so far.
#[derive(Clone, Copy)]
pub struct Progress {
    pub rows: usize,
    pub used: u64,
}

// What ends a listing: the budget, with the rows so far, or a row that doesn't fit.
#[derive(Clone, Copy)]
pub enum Stop {
    Spent(usize),
    Full(Progress),
}

impl Progress {
    // The same rows, after so many decisions more.
    pub fn after(self, used: u64) -> Progress
        requires { self.used + used < 2 ^ 64 }
        ensures { result ≡ on_after self used }
    {
        Progress {
            rows: self.rows,
            used: self.used + used,
        }
    }
}

// A row that was found: it is written behind the rows before it, or doesn't fit.
fn put_row(rows: &mut [u8], s: Marks, k: usize, at: Progress) -> Result<Progress, Stop>
    requires k_bound { k ≤ 128 }
    requires k_in_bounds { at.rows * k ≤ length rows.old }
    requires r_value { k ≡ 0 → at.rows ≡ 0 }
    ensures { (budget : ℕ) → at.used ≤ budget → FedBy k budget (one_row (marks_at k s)) at rows.old rows.new result }
{
    let start = at.rows * k;
    if rows.len() < start + k {
        return Err(Stop::Full(at));
    }
    write_row(&mut rows[start..], s, k);
    Ok(Progress {
        rows: at.rows + 1,
        used: at.used,
    })
}

// For each q of s by position ask Rounds of s without q and the safety of the result, up to the first unsatisfiable; if there was none, s
// is the next row.
pub fn row_of(
    of: &Asked<'_>,
    s: Marks,
    rows: &mut [u8],
    at: Progress,
    budget: u64,
) -> Result<Progress, Stop>
    requires { Ready of.now.problem.k budget rows.old at }
    ensures { FedBy of.now.problem.k budget (Rules.row_of (asks_of of.now) (marks_of of.now s)) at rows.old rows.new result }
{
    match first_yes(of, s, Each::Smaller, budget - at.used) {
        Err(Spent) => Err(Stop::Spent(at.rows)),
        Ok(Answer::Yes(u)) => Ok(at.after(u)),
        Ok(Answer::No(u)) => put_row(rows, s, of.problem.k, at.after(u)),
    }
}
