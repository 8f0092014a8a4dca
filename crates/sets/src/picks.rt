// The largest set, the safety of a set, and the one set.
ghost use Rattle.std.specs.Prelude.{◌≤◌, ◌<◌, suc};
ghost use Rattle.meaning.specs.Rules;
ghost use Rattle.sets.specs.Asks.{marks_of, asks_of};
ghost use Rattle.sets.specs.Forms.{KeptIs};
ghost use Rattle.sets.specs.Judging.{JudgedFrom, JudgedIs};
ghost use Rattle.sets.specs.Shrinking.{ShrunkUpto, ShrunkNext};
ghost use Rattle.sets.specs.Single.{SingleIs};

use crate::rounds::{Kept, Way, rounds, sift};
use search::{Answer, Asked, Marks, Question, Spent};

// A set with its safety asked: the set, the decisions used for both, and whether it is safe.
#[derive(Clone, Copy)]
pub struct Judged {
    pub set: Marks,
    pub used: u64,
    // no Option: the set and the decisions are there in both cases, as `JudgedAll` says
    pub safe: bool,
}

// A set that was kept, and now its safety.
pub fn judge(of: &Asked<'_>, x: Kept, left: u64) -> Result<Judged, Spent>
    requires { x.used ≤ left }
    ensures { JudgedFrom (asks_of of.now) of.now.problem.k left x result }
{
    let a = search::ask(of, x.set, Question::Safety, left - x.used)?;
    match a {
        Answer::Yes(u) => Ok(Judged {
            set: x.set,
            used: x.used + u,
            safe: false,
        }),
        Answer::No(u) => Ok(Judged {
            set: x.set,
            used: x.used + u,
            safe: true,
        }),
    }
}

// The largest set: ask initiation for every position, drop the satisfiable ones, then Rounds.
pub fn largest(of: &Asked<'_>, left: u64) -> Result<Kept, Spent>
    ensures { KeptIs of.now.problem.k left (Rules.largest (asks_of of.now) of.now.problem.k) result }
{
    let a = sift(of, Marks::all(), Way::First, left)?;
    let r = rounds(of, a.set, left - a.used)?;
    Ok(Kept {
        set: r.set,
        used: a.used + r.used,
    })
}

// The largest set, and its safety.
pub fn largest_judged(of: &Asked<'_>, left: u64) -> Result<Judged, Spent>
    ensures { JudgedIs (asks_of of.now) of.now.problem.k left (Rules.largest (asks_of of.now) of.now.problem.k) result }
{
    let x = largest(of, left)?;
    judge(of, x, left)
}

// X is Rounds of s without q, and its safety is asked.
pub fn reduce(of: &Asked<'_>, s: Marks, q: usize, left: u64) -> Result<Judged, Spent>
    requires { q < of.now.problem.k }
    ensures { JudgedIs (asks_of of.now) of.now.problem.k left (Rules.reduced (asks_of of.now) q (marks_of of.now s)) result }
{
    let x = rounds(of, s.without(q), left)?;
    judge(of, x, left)
}

// One position of the one set: X is Rounds of S without q; ask safety of X; if unsatisfiable, S becomes X.
fn shrink_at(of: &Asked<'_>, from: Marks, done: Kept, q: usize, left: u64) -> Result<Kept, Spent>
    requires q_lt_k { q < of.now.problem.k }
    requires shrunk_upto { ShrunkUpto (asks_of of.now) of.now.problem.k left (marks_of of.now from) q done }
    ensures { ShrunkNext (asks_of of.now) of.now.problem.k left (marks_of of.now from) (suc q) result }
{
    if !done.set.on[q] {
        return Ok(done);
    }
    let x = reduce(of, done.set, q, left - done.used)?;
    if x.safe {
        return Ok(Kept {
            set: x.set,
            used: done.used + x.used,
        });
    }
    Ok(Kept {
        set: done.set,
        used: done.used + x.used,
    })
}

// For each position by rising number still in S.
pub fn shrink(of: &Asked<'_>, s: Marks, left: u64) -> Result<Kept, Spent>
    ensures { KeptIs of.now.problem.k left (Rules.shrink (asks_of of.now) of.now.problem.k 0 (marks_of of.now s)) result }
{
    let mut r = Kept { set: s, used: 0 };
    for q in 0..of.problem.k {
        // nothing is moved for a position that is out
        if r.set.on[q] {
            r = shrink_at(of, s, r, q, left)?;
        }
    }
    Ok(r)
}

// The one set: the largest set; ask its safety; satisfiable is refusal 11. Else S is that set, and shrinks.
pub fn single(of: &Asked<'_>, left: u64) -> Result<Judged, Spent>
    ensures { SingleIs (asks_of of.now) of.now.problem.k left result }
{
    let b = largest_judged(of, left)?;
    if !b.safe {
        return Ok(b);
    }
    let r = shrink(of, b.set, left - b.used)?;
    Ok(Judged {
        set: r.set,
        used: b.used + r.used,
        safe: true,
    })
}
