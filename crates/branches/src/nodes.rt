// The nodes of a listing: a node and the two below it, row by row into the lent bytes, until the budget or the space ends.
ghost use Rattle.std.specs.Prelude.{◌≡◌, ◌&&◌, not, false, ◌≤◌, ◌<◌, ◌*◌, ℕ, length, get_or};
ghost use Rattle.meaning.specs.Rules;
ghost use Rattle.sets.specs.Asks.{marks_of, asks_of};
ghost use Rattle.rows.specs.ListingProgress.{Ready, FedBy};
ghost use Rattle.branches.specs.ListingSets.{place_of, PlaceIn};
ghost use Rattle.branches.specs.ListingSide.{SideIs};

use rows::found::{Progress, Stop, row_of};
use search::{Answer, Asked, Marks, Spent};
use sets::picks::{Judged, judge};
use sets::questions::failing;
use sets::rounds::rounds;

// Whether the position d is in a and not in s.
fn only(a: Marks, s: Marks, d: usize) -> bool
    requires { d < 128 }
    ensures { result ≡ (get_or a.on d false && not (get_or s.on d false)) }
{
    a.on[d] && !s.on[d]
}

// The lowest position that is in a and not in s.
fn lowest(of: &Asked<'_>, a: Marks, s: Marks) -> Option<usize>
    ensures { (place_of result ≡ Rules.lowest 0 (marks_of of.now a) (marks_of of.now s)) × PlaceIn of.now.problem.k result }
{
    for d in 0..of.problem.k {
        if only(a, s, d) {
            return Some(d);
        }
    }
    None
}

// Whether x contains s: no position is in s and not in x.
fn contains(of: &Asked<'_>, x: Marks, s: Marks) -> bool
    ensures { result ≡ Rules.contains (marks_of of.now x) (marks_of of.now s) }
{
    lowest(of, s, x).is_none()
}

// X is Rounds of top without q; if X contains base, its safety is asked. Safe stands for both: X contains base, and is safe.
fn narrowed(of: &Asked<'_>, base: Marks, top: Marks, q: usize, left: u64) -> Result<Judged, Spent>
    requires { q < of.now.problem.k }
    ensures { SideIs (asks_of of.now) of.now.problem.k left q (marks_of of.now base) (marks_of of.now top) result }
{
    let x = rounds(of, top.without(q), left)?;
    if !contains(of, x.set, base) {
        return Ok(Judged {
            set: x.set,
            used: x.used,
            safe: false,
        });
    }
    judge(of, x, left)
}

// X is Rounds of top without q; if X contains base, ask its safety, and if that is unsatisfiable do the node (base, X).
#[cycle(branch_exclude_node)]
fn exclude(
    of: &Asked<'_>,
    fuel: usize,
    q: usize,
    base: Marks,
    top: Marks,
    rows: &mut [u8],
    at: Progress,
    budget: u64,
) -> Result<Progress, Stop>
    requires ready { Ready of.now.problem.k budget rows.old at }
    requires q_lt_k { q < of.now.problem.k }
    ensures { FedBy of.now.problem.k budget (Rules.exclude (asks_of of.now) q (Rules.node (asks_of of.now) fuel) (marks_of of.now base) (marks_of of.now top)) at rows.old rows.new result }
{
    let Ok(x) = narrowed(of, base, top, q, budget - at.used) else {
        return Err(Stop::Spent(at.rows));
    };
    let on = at.after(x.used);
    if !x.safe {
        return Ok(on);
    }
    node(of, fuel, base, x.set, rows, on, budget)
}

// q is the lowest position in top and not in base: do the node (base with q, top), then the other.
#[cycle(branch_exclude_node)]
fn branch(
    of: &Asked<'_>,
    fuel: usize,
    base: Marks,
    top: Marks,
    rows: &mut [u8],
    at: Progress,
    budget: u64,
) -> Result<Progress, Stop>
    requires { Ready of.now.problem.k budget rows.old at }
    ensures { FedBy of.now.problem.k budget (Rules.branch (asks_of of.now) (Rules.lowest 0 (marks_of of.now top) (marks_of of.now base)) (Rules.node (asks_of of.now) fuel) (marks_of of.now base) (marks_of of.now top)) at rows.old rows.new result }
{
    let Some(q) = lowest(of, top, base) else {
        return Ok(at);
    };
    let on = node(of, fuel, base.with(q), top, rows, at, budget)?;
    exclude(of, fuel, q, base, top, rows, on, budget)
}

// A node (base, top): the questions of base; if all are unsatisfiable, perhaps a row; otherwise the two nodes below.
#[cycle(branch_exclude_node)]
pub fn node(
    of: &Asked<'_>,
    fuel: usize,
    base: Marks,
    top: Marks,
    rows: &mut [u8],
    at: Progress,
    budget: u64,
) -> Result<Progress, Stop>
    requires { Ready of.now.problem.k budget rows.old at }
    ensures { FedBy of.now.problem.k budget (Rules.node (asks_of of.now) fuel (marks_of of.now base) (marks_of of.now top)) at rows.old rows.new result }
{
    if fuel == 0 {
        return Ok(at);
    }
    match failing(of, base, budget - at.used) {
        Err(Spent) => Err(Stop::Spent(at.rows)),
        Ok(Answer::No(u)) => row_of(of, base, rows, at.after(u), budget),
        Ok(Answer::Yes(u)) => branch(of, fuel - 1, base, top, rows, at.after(u), budget),
    }
}
