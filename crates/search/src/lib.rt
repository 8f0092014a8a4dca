// The questions of a problem file, asked: partial settings, where a question's clauses stand in the file, and the search with its count of
// decisions. `ask` is the one way in.
#![tactic(auto)]

pub use asked::Asked;
use clauses::Clauses;
use engine::decide;
use format::Section;
use places::parts_of;

mod asked; // a problem in its file
mod clauses; // the clauses of a question
mod engine; // the search
mod places; // where a question's clauses stand
mod positions; // sets by value
mod values; // settings by value

ghost use Rattle.std.specs.Prelude.{◌≡◌};
ghost use Rattle.meaning.specs.Rules.{asked};
ghost use Rattle.format.specs.Section.{problem_at};
ghost use Rattle.search.specs.Forms.{marks_at, question_of, Among, bounded, more, Counts};

// A partial setting, by variable number (0 stands idle): 0 unset, 1 true, 2 false.
#[derive(Clone, Copy)]
pub struct Setting {
    pub values: [u8; 513],
}

// A set of positions. The array is as long as the most lemmas: no heap, and how many there are is the problem's k.
#[derive(Clone, Copy)]
pub struct Marks {
    pub on: [bool; 128],
}

// Three kinds of question: of a set, the initiation of a position, the step of a position, and the safety.
#[derive(Clone, Copy)]
pub enum Question {
    Initiation(usize),
    Step(usize),
    Safety,
}

// Satisfiable or unsatisfiable, with the decisions used.
#[derive(Clone, Copy)]
pub enum Answer {
    Yes(u64),
    No(u64),
}

// A decision was wanted when the budget was used up.
#[derive(Clone, Copy)]
pub struct Spent;

impl Answer {
    // The same answer after so many decisions more.
    pub fn after(self, used: u64) -> Answer
        requires { Counts used self }
        ensures { result ≡ more used self }
    {
        match self {
            Answer::Yes(d) => Answer::Yes(used + d),
            Answer::No(d) => Answer::No(used + d),
        }
    }
}

// Where the clauses of a question stand in the file, in the question's order: records, the lemmas that are marked, records again, and the literals
// that are denied, each with a number added to its variable.
#[derive(Clone, Copy)]
struct Parts {
    first: Section,
    lemmas: Section,
    last: Section,
    denied: Section,
    added: usize,
}

// Every question of a call is asked here: of a problem that stands in its file, for the lemmas that are marked, within the decisions left.
pub fn ask(of: &Asked<'_>, s: Marks, q: Question, left: u64) -> Result<Answer, Spent>
    requires { Among of.now.problem.k q }
    ensures { result ≡ bounded left (asked (problem_at of.now.file.now of.now.problem) (marks_at of.now.problem.k s) (question_of q)) }
{
    let clauses = Clauses {
        file: of.file,
        on: &s.on,
        parts: parts_of(of, q),
    };
    decide(&clauses, Setting::none_set(), left)
}
