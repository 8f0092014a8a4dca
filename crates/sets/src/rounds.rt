// Sifting a set by one question of each position, and Rounds.
ghost use Rattle.std.specs.Prelude.{◌≡◌, ◌≤◌, ◌<◌, suc};
ghost use Rattle.meaning.specs.Rules;
ghost use Rattle.sets.specs.Asks.{marks_of, asks_of};
ghost use Rattle.sets.specs.Forms.{DoneUpto, DoneNext, Done, KeptIs, way_of};

use crate::members::count;
use search::{Answer, Asked, Marks, Question, Spent};

// What a sifting asks of each position: its initiation, or its step. No closure: a caller would have to prove what it asks, which `way_of` says.
#[derive(Clone, Copy)]
pub enum Way {
    First,
    Round,
}

impl Way {
    // The question that a way of sifting asks of a position.
    fn question(self, d: usize) -> Question
        ensures { result ≡ way_of self d }
    {
        match self {
            Way::First => Question::Initiation(d),
            Way::Round => Question::Step(d),
        }
    }
}

// A set being sifted: what stayed, the decisions used, and whether some fell.
#[derive(Clone, Copy)]
pub struct Sifted {
    pub set: Marks,
    pub used: u64,
    // no Option: the set is there in both cases, as `SiftedAll` says
    pub removed: bool,
}

// A set that was kept, and the decisions used.
#[derive(Clone, Copy)]
pub struct Kept {
    pub set: Marks,
    pub used: u64,
}

// One position more of a sifting: its question is asked of the whole set, and not of what is left of it.
fn sift_at(
    of: &Asked<'_>,
    s: Marks,
    way: Way,
    done: Sifted,
    d: usize,
    left: u64,
) -> Result<Sifted, Spent>
    requires d_lt_k { d < of.now.problem.k }
    requires done_upto { DoneUpto of.now.file.now of.now.problem s way left d done }
    ensures { DoneNext of.now.file.now of.now.problem s way left (suc d) result }
{
    if !s.on[d] {
        return Ok(done);
    }
    let whole = s; // and not what is left of it
    let a = search::ask(of, whole, way.question(d), left - done.used)?;
    match a {
        Answer::Yes(u) => Ok(Sifted {
            set: done.set.without(d),
            used: done.used + u,
            removed: true,
        }),
        Answer::No(u) => Ok(Sifted {
            set: done.set,
            used: done.used + u,
            removed: done.removed,
        }),
    }
}

// A set sifted by one question of each of its positions.
pub fn sift(of: &Asked<'_>, s: Marks, way: Way, left: u64) -> Result<Sifted, Spent>
    ensures { Done of.now.file.now of.now.problem s way left result }
{
    let mut r = Sifted {
        set: s,
        used: 0,
        removed: false,
    };
    for d in 0..of.problem.k {
        // nothing is moved for a position that is out
        if s.on[d] {
            r = sift_at(of, s, way, r, d, left)?;
        }
    }
    Ok(r)
}

// Rounds of s: sift it by its step questions until a round removes none. Each round but the last removes one at the least.
pub fn rounds(of: &Asked<'_>, s: Marks, left: u64) -> Result<Kept, Spent>
    ensures { KeptIs of.now.problem.k left (Rules.rounds (asks_of of.now) (marks_of of.now s)) result }
{
    let mut set = s;
    let mut used: u64 = 0;
    let fuel = count(&s.on[..of.problem.k]) + 1;
    for _ in 0..fuel {
        let r = sift(of, set, Way::Round, left - used)?;
        used += r.used;
        if !r.removed {
            return Ok(Kept { set, used });
        }
        set = r.set;
    }
    Ok(Kept { set, used })
}
