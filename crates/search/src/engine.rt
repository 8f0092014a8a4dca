// The search: forced literals are set until none is left, and then a literal is tried true and, if that branch closes, false.
ghost use Rattle.std.specs.Prelude.{◌≡◌};
ghost use Rattle.meaning.specs.Clauses.{negation};
ghost use Rattle.meaning.specs.Rules.{answer};
ghost use Rattle.meaning.specs.Search.{Setting as Partial};
ghost use Rattle.format.specs.Forms.{literal_of};
ghost use Rattle.passes.specs.Sweep.{passed, satisfied, sweep};
ghost use Rattle.passes.specs.Forms.{entries, tally_at};
ghost use Rattle.search.specs.Forms.{setting_of, ended_by, bounded};
ghost use Rattle.search.specs.Engine.{clauses_of, search_at, Ready};

use crate::clauses::Clauses;
use crate::{Answer, Setting, Spent};
use format::Literal;
use passes::{Tally, sweep_denied, sweep_marked, sweep_records};

// A pass over all clauses of a question, in the question's order.
fn sweep_all(q: &Clauses<'_>, values: &mut [u8; 513]) -> Tally
    ensures { tally_at result (entries values.new) ≡ sweep (clauses_of q.now) (passed (entries values.old) satisfied) }
{
    let p = &q.parts;
    let start = Tally::Satisfied;
    let first = sweep_records(q.file, p.first.at, p.first.count, values, start);
    let lemmas = sweep_marked(q.file, q.on, p.lemmas.at, p.lemmas.count, values, first);
    let last = sweep_records(q.file, p.last.at, p.last.count, values, lemmas);
    sweep_denied(q.file, p.denied.at, p.denied.count, p.added, values, last)
}

// Rule (c), as long as it serves: a clause with no true literal and exactly one place holding an unset literal has that literal set true, not
// counted. Forced literals may be set in any order, so a pass sets all that it meets; the last pass forces none.
fn propagate(q: &Clauses<'_>, values: &mut [u8; 513]) -> Tally
    ensures { Ready (clauses_of q.now) (entries values.old) (tally_at result (entries values.new)) }
{
    // no `for`: nothing is counted, and the passes end where one forces none
    loop {
        let next = sweep_all(q, values);
        let Tally::Forced = next else {
            return next;
        };
    }
}

fn negated(l: Literal) -> Literal
    ensures { literal_of result ≡ negation (literal_of l) }
{
    match l {
        Literal::Pos(x) => Literal::Neg(x),
        Literal::Neg(x) => Literal::Pos(x),
    }
}

// The answer at a setting where nothing is left to try: by rule (b) every clause has a true literal, or by rule (a) one has only false ones.
fn ended(t: Tally) -> Answer
    ensures { result ≡ ended_by t }
{
    match t {
        Tally::Satisfied => Answer::Yes(0),
        Tally::Try(_) | Tally::Forced | Tally::Closed => Answer::No(0),
    }
}

// The search from a setting. Rule (d): try the literal true, then, if that branch closes, false, from the setting as it stood before. Each try is
// one decision, and a decision wanted when the budget is used up ends the search.
pub fn decide(q: &Clauses<'_>, start: Setting, left: u64) -> Result<Answer, Spent>
    ensures { result ≡ bounded left (answer (search_at (clauses_of q.now) (setting_of start))) }
{
    let mut setting = start;
    let next = propagate(q, &mut setting.values);
    let Tally::Try(l) = next else {
        return Ok(ended(next));
    };
    if left == 0 {
        return Err(Spent);
    }
    let yes = decide(q, setting.with(l), left - 1)?;
    let Answer::No(used) = yes else {
        return Ok(yes.after(1));
    };
    if left - 1 == used {
        return Err(Spent);
    }
    let no = decide(q, setting.with(negated(l)), left - 2 - used)?;
    Ok(no.after(used + 2))
}
