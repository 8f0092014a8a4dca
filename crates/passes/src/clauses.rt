// A pass over clauses that are read in place: each clause is met once, and a forced literal is set at once.
ghost use Rattle.std.specs.Prelude.{◌≡◌, ◌+◌, ◌≤◌, ◌<◌, [], ◌∷◌, map};
ghost use Rattle.meaning.specs.Clauses.{Literal as Meant, variable, negation};
ghost use Rattle.meaning.specs.Meaning.{at_marks};
ghost use Rattle.meaning.specs.Rules.{denied, next};
ghost use Rattle.meaning.specs.Search.{Setting as Partial, with_literal};
ghost use Rattle.meaning.specs.File.{literals};
ghost use Rattle.format.specs.Forms.{literal_of};
ghost use Rattle.format.specs.Section.{section};
ghost use Rattle.passes.specs.Sweep as spec;
ghost use Rattle.passes.specs.Forms.{entries, status_of, tally_at};
ghost use Rattle.passes.specs.Seen.{more_places, first_seen, seen_places, FirstInside};
ghost use Rattle.passes.specs.Places.{Literals, Records, Denials, OneBelow};

use crate::values::{set_true, worth};
use crate::{Status, Tally};
use format::{Literal, literal_at, two_at};

// One unset place more of a clause: none, one, and then several.
fn one_more(places: usize) -> usize
    ensures { result ≡ more_places places }
{
    if places == 0 {
        return 1;
    }
    2
}

// Where the first unset literal of a clause stands, after one more at a place.
fn first_of(places: usize, first: usize, here: usize) -> usize
    ensures { result ≡ first_seen places first here }
{
    if places == 0 {
        return here;
    }
    first
}

// What a clause without a true literal comes to: so many unset places, the first of them where it was seen.
fn told(file: &[u8], places: usize, first: usize) -> Status
    requires { FirstInside file.now places first }
    ensures { status_of result ≡ seen_places file.now places first }
{
    if places == 0 {
        return Status::Fails;
    }
    let l = literal_at(file, first);
    if places == 1 {
        return Status::One(l);
    }
    Status::More(l)
}

// What a clause comes to: its literals one after another, up to the first true one. The loop holds numbers alone, so that it runs in registers.
fn scan(file: &[u8], start: usize, count: usize, values: &[u8; 513]) -> Status
    requires { Literals file.now start count }
    ensures { status_of result ≡ spec.status (entries values.now) (literals file.now start count) }
{
    let mut places: usize = 0;
    let mut first = start;
    for i in 0..count {
        let here = start + 2 * i;
        let v = worth(values, literal_at(file, here));
        if v == 1 {
            return Status::Holds;
        }
        if v == 0 {
            first = first_of(places, first, here);
            places = one_more(places);
        }
    }
    told(file, places, first)
}

// After a clause that forces a literal, which is set.
#[tactic(auto, unfolding(crate::specs::Sweep::met_on, crate::specs::Sweep::met_by))]
fn forced(t: Tally) -> Tally
    ensures { (l : Meant) (v : Partial) → tally_at result (with_literal v l) ≡ spec.met_on (spec.one l) (tally_at t v) }
{
    match t {
        Tally::Closed => t,
        Tally::Satisfied | Tally::Forced | Tally::Try(_) => Tally::Forced,
    }
}

// After a clause with several unset places: rule (d) tries the first unset literal of the first such clause.
#[tactic(auto, unfolding(crate::specs::Sweep::met_on, crate::specs::Sweep::met_by, crate::specs::Sweep::opened))]
fn opened(t: Tally, l: Literal) -> Tally
    ensures { (v : Partial) → tally_at result v ≡ spec.met_on (spec.more (literal_of l)) (tally_at t v) }
{
    match t {
        Tally::Satisfied => Tally::Try(l),
        Tally::Forced | Tally::Closed | Tally::Try(_) => t,
    }
}

// A clause is met: a literal that it forces is set at once.
fn met(t: Tally, s: Status, values: &mut [u8; 513]) -> Tally
    requires { OneBelow s }
    ensures { tally_at result (entries values.new) ≡ spec.met_on (status_of s) (tally_at t (entries values.old)) }
{
    match s {
        Status::Holds => t,
        Status::Fails => Tally::Closed,
        Status::One(l) => {
            set_true(values, l);
            forced(t)
        }
        Status::More(l) => opened(t, l),
    }
}

// A pass over so many records, one after another. The three passes stay apart: a closure for what stands next would have to promise all that
// `Records`, marks and `Denials` do, and each turn would call it.
pub fn sweep_records(
    file: &[u8],
    start: usize,
    count: usize,
    values: &mut [u8; 513],
    t: Tally,
) -> Tally
    requires { Records file.now start count }
    ensures { tally_at result (entries values.new) ≡ spec.sweep (section file.now start count) (tally_at t (entries values.old)) }
{
    let mut tally = t;
    let mut at = start;
    for i in 0..count {
        if let Tally::Closed = tally {
            return tally;
        }
        let len = two_at(file, at);
        tally = met(tally, scan(file, at + 4, len / 2, values), values);
        at += 4 + len;
    }
    tally
}

// A pass over the lemmas that are marked, of so many records.
pub fn sweep_marked(
    file: &[u8],
    on: &[bool; 128],
    start: usize,
    count: usize,
    values: &mut [u8; 513],
    t: Tally,
) -> Tally
    requires { Records file.now start count × (count ≤ 128) }
    ensures { tally_at result (entries values.new) ≡ spec.sweep (at_marks on.now (section file.now start count)) (tally_at t (entries values.old)) }
{
    let mut tally = t;
    let mut at = start;
    for i in 0..count {
        if let Tally::Closed = tally {
            return tally;
        }
        let len = two_at(file, at);
        let marked = on[i];
        if marked {
            tally = met(tally, scan(file, at + 4, len / 2, values), values);
        }
        at += 4 + len;
    }
    tally
}

// The negation of a literal with a number added to its variable: away from zero, on either side.
fn denial(l: Literal, added: usize) -> Literal
    requires { added + variable (literal_of l) < 513 }
    ensures { literal_of result ≡ negation (next added (literal_of l)) }
{
    match l {
        Literal::Pos(x) => Literal::Neg(added + x),
        Literal::Neg(x) => Literal::Pos(added + x),
    }
}

// What a clause of one literal comes to.
fn lone(values: &[u8; 513], l: Literal) -> Status
    requires { variable (literal_of l) < 513 }
    ensures { status_of result ≡ spec.status (entries values.now) (literal_of l ∷ []) }
{
    let v = worth(values, l);
    if v == 0 {
        Status::One(l)
    } else if v == 1 {
        Status::Holds
    } else {
        Status::Fails
    }
}

// A pass over the negations of so many literals, each a clause of its own, with a number added to each variable.
pub fn sweep_denied(
    file: &[u8],
    start: usize,
    count: usize,
    added: usize,
    values: &mut [u8; 513],
    t: Tally,
) -> Tally
    requires { Denials file.now start count added }
    ensures { tally_at result (entries values.new) ≡ spec.sweep (denied (map (next added) (literals file.now start count))) (tally_at t (entries values.old)) }
{
    let mut tally = t;
    for i in 0..count {
        if let Tally::Closed = tally {
            return tally;
        }
        let l = denial(literal_at(file, start + 2 * i), added);
        tally = met(tally, lone(values, l), values);
    }
    tally
}
