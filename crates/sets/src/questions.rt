// The questions of a node: one of each position of a set up to the first that is satisfiable, and the safety of the set.
ghost use Rattle.std.specs.Prelude.{◌≡◌, ◌≤◌, ◌<◌};
ghost use Rattle.meaning.specs.Meaning.{has};
ghost use Rattle.meaning.specs.Rules;
ghost use Rattle.search.specs.Forms.{bounded};
ghost use Rattle.sets.specs.Asks.{marks_of, asks_of};
ghost use Rattle.sets.specs.ListingFound.{if_in};
ghost use Rattle.sets.specs.ListingForms.{each_asks};

use crate::picks::reduce;
use search::{Answer, Asked, Marks, Question, Spent};

// What is asked of each position: its step, or whether the set without it leads to a smaller one that is safe. No
// closure: a caller would have to prove what it answers, which `each_asks` says.
#[derive(Clone, Copy)]
pub enum Each {
    Step,
    Smaller,
}

// Rounds of s without q and the safety of the result, read the other way round: yes where that is unsatisfiable.
fn smaller_at(of: &Asked<'_>, s: Marks, q: usize, left: u64) -> Result<Answer, Spent>
    requires { q < of.now.problem.k }
    ensures { result ≡ bounded left (Rules.smaller_at (asks_of of.now) (marks_of of.now s) q) }
{
    let x = reduce(of, s, q, left)?;
    if x.safe {
        return Ok(Answer::Yes(x.used));
    }
    Ok(Answer::No(x.used))
}

// What is asked of the position d, if it is in s; of another one nothing is.
fn ask_at(of: &Asked<'_>, s: Marks, each: Each, d: usize, left: u64) -> Result<Answer, Spent>
    requires { d < of.now.problem.k }
    ensures { result ≡ bounded left (if_in (has (marks_of of.now s) d) (each_asks (asks_of of.now) (marks_of of.now s) each d)) }
{
    if !s.on[d] {
        return Ok(Answer::No(0));
    }
    match each {
        Each::Step => search::ask(of, s, Question::Step(d), left),
        Each::Smaller => smaller_at(of, s, d, left),
    }
}

// A question for each position that is in, by position, up to the first satisfiable.
pub fn first_yes(of: &Asked<'_>, s: Marks, each: Each, left: u64) -> Result<Answer, Spent>
    ensures { result ≡ bounded left (Rules.first_yes (each_asks (asks_of of.now) (marks_of of.now s) each) 0 (marks_of of.now s)) }
{
    let mut used: u64 = 0;
    for d in 0..of.problem.k {
        let a = ask_at(of, s, each, d, left - used)?;
        let Answer::No(u) = a else {
            return Ok(a.after(used));
        };
        used += u;
    }
    Ok(Answer::No(used))
}

// Ask step(K, d) for d of K by position up to the first satisfiable, then, if none, safety of K.
pub fn failing(of: &Asked<'_>, s: Marks, left: u64) -> Result<Answer, Spent>
    ensures { result ≡ bounded left (Rules.failing (asks_of of.now) (marks_of of.now s)) }
{
    let a = first_yes(of, s, Each::Step, left)?;
    let Answer::No(used) = a else {
        return Ok(a);
    };
    let b = search::ask(of, s, Question::Safety, left - used)?;
    Ok(b.after(used))
}
