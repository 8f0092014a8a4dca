// Where the clauses of each kind stand in a file, as far as it is read: their records follow each other, since kinds never go down.
ghost use Rattle.std.specs.Prelude.{◌≡◌, ◌≤◌};
ghost use Rattle.problem.specs.Records.{section_past, sections_past, no_sections, problem_from, Few};

use format::{Problem, Section};

// After a record of a kind that ends before `next`: one more of its own kind; of a later kind none yet, from `next` on.
#[tactic(auto, unfolding(crate::specs::Records::section_past))]
fn section_past(s: Section, own: usize, kind: usize, next: usize) -> Section
    requires { s.count ≤ Problem.CLAUSES_MOST }
    ensures { result ≡ section_past own kind next s }
{
    if kind < own {
        return Section { at: next, count: 0 };
    }
    if kind == own {
        return Section {
            count: s.count + 1,
            ..s
        };
    }
    s
}

// The four kinds of clauses.
#[derive(Clone, Copy)]
pub struct Sections {
    pub init: Section,
    pub tr: Section,
    pub bad: Section,
    pub lemmas: Section,
}

#[tactic(auto, unfolding(crate::specs::Records::no_section, crate::specs::Records::no_sections))]
pub fn at_start() -> Sections
    ensures { result ≡ no_sections }
{
    let none = Section { at: 0, count: 0 };
    Sections {
        init: none,
        tr: none,
        bad: none,
        lemmas: none,
    }
}

impl Sections {
    // After a record of a kind that ends before `next`.
    #[tactic(auto, unfolding(crate::specs::Records::sections_past))]
    pub fn past(self, kind: usize, next: usize) -> Sections
        requires { Few self }
        ensures { result ≡ sections_past kind next self }
    {
        Sections {
            init: section_past(self.init, 2, kind, next),
            tr: section_past(self.tr, 3, kind, next),
            bad: section_past(self.bad, 4, kind, next),
            lemmas: section_past(self.lemmas, 5, kind, next),
        }
    }

    // The problem of a file that is read to its end.
    pub fn problem(self, n: usize, m: usize) -> Problem
        ensures { result ≡ problem_from self n m }
    {
        Problem {
            n,
            m,
            k: self.lemmas.count,
            init: self.init,
            tr: self.tr,
            bad: self.bad,
            lemmas_at: self.lemmas.at,
        }
    }
}
