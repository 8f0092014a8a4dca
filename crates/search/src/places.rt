// Where the clauses of a question stand in the file.
ghost use Rattle.std.specs.Prelude.{◌≡◌, ◌<◌};
ghost use Rattle.format.specs.Section.{Inside};
ghost use Rattle.search.specs.Forms.{Among};
ghost use Rattle.search.specs.Places.{place, LemmaAt, Asks};

use crate::{Asked, Parts, Question};
use format::{Section, two_at};

// No clause and no literal.
const NOTHING: Section = Section { at: 0, count: 0 };

// Where the record so many records on starts.
fn record_at(file: &[u8], start: usize, count: usize) -> usize
    requires { Inside file.now start count }
    ensures { result ≡ place file.now start count }
{
    let mut at = start;
    for _ in 0..count {
        at = at + 4 + two_at(file, at);
    }
    at
}

// Where the literals of the lemma d stand.
fn lemma_at(of: &Asked<'_>, d: usize) -> Section
    requires { d < of.now.problem.k }
    ensures { LemmaAt of.now.file.now of.now.problem d result }
{
    let at = record_at(of.file, of.problem.lemmas_at, d);
    Section {
        at: at + 4,
        count: two_at(of.file, at) / 2,
    }
}

// Initiation of d: Init, then the negation of each literal of d. Step of S and d: Tr, the lemmas of S by position, then the negated literals of d
// with n added to each variable. Safety of S: the lemmas of S by position, then Bad.
pub fn parts_of(of: &Asked<'_>, q: Question) -> Parts
    requires { Among of.now.problem.k q }
    ensures { Asks of.now.file.now of.now.problem q result }
{
    let p = &of.problem;
    let lemmas = Section {
        at: p.lemmas_at,
        count: p.k,
    };
    match q {
        Question::Initiation(d) => Parts {
            first: p.init,
            lemmas: NOTHING,
            last: NOTHING,
            denied: lemma_at(of, d),
            added: 0,
        },
        Question::Step(d) => Parts {
            first: p.tr,
            lemmas,
            last: NOTHING,
            denied: lemma_at(of, d),
            added: p.n,
        },
        Question::Safety => Parts {
            first: NOTHING,
            lemmas,
            last: p.bad,
            denied: NOTHING,
            added: 0,
        },
    }
}
