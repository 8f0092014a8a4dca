// The reader of a problem file, and the checking job: one pass, record by record, with nothing copied. A refusal has its number and its
// place; an accepted problem has the places of its four sections.
#![tactic(auto)]

use format::Problem;

mod refusal;
mod rules;
mod sections;

ghost use Rattle.std.specs.Prelude.{◌≡◌, []};
ghost use Rattle.meaning.specs.File.{read};
ghost use Rattle.meaning.specs.Calls.{check_call, refusal};
ghost use Rattle.problem.specs.Answers.{reading_of_answer, PlacedIf, report_of};
ghost use Rattle.problem.specs.Refusals.{number_of};

pub use refusal::{Refusal, Rule};

// 1: file over 65,536 bytes; then record by record; 8: bytes after kind 6.
pub fn read_problem(file: &[u8]) -> Result<Problem, Refusal>
    ensures { (reading_of_answer file.now result ≡ read file.now) × PlacedIf file.now result }
{
    if Problem::FILE_MOST < file.len() {
        return Err(Rule::TooLong.at(0));
    }
    let mut w = rules::at_start();
    let mut s = sections::at_start();
    // A walk by places that jump, up to the record of kind 6: nothing is counted, so `while` is the plainer word.
    while w.before != 6 {
        w = rules::record_at(file, w)?;
        s = s.past(w.before, w.at);
    }
    if w.at < file.len() {
        return Err(Rule::Trailing.at(w.at));
    }
    Ok(s.problem(w.n, w.m))
}

// What every job returns; what is not given for an answer is 0. Number 0: answered, with no refusal. The C interface hands it over word by
// word, so it holds numbers alone.
#[derive(Clone, Copy, Default)]
pub struct Report {
    pub number: u32,
    pub place: usize,
    pub decisions: usize,
    pub rows: usize,
    pub n: usize,
    pub m: usize,
    pub k: usize,
}

impl Report {
    // A refusal returns its number, place and decisions and, for a listing, the rows kept, and no n, m or k.
    #[tactic(auto, unfolding(meaning::specs::Calls::refusal))]
    pub fn refused(number: u32, place: usize, decisions: usize, rows: usize) -> Report
        ensures { report_of result ≡ (refusal number place decisions rows []).report }
    {
        Report {
            number,
            place,
            decisions,
            rows,
            ..Report::default()
        }
    }
}

impl From<Refusal> for Report {
    ghost from_gives = { λ r report. report_of report ≡ (refusal (number_of r.rule) r.place 0 0 []).report };

    fn from(r: Refusal) -> Report {
        Report::refused(r.rule.number(), r.place, 0, 0)
    }
}

// The checking job writes nothing, counts 0, and returns n, m and k of an accepted file.
pub fn check(file: &[u8]) -> Report
    ensures { report_of result ≡ (check_call file.now 0 []).report }
{
    match read_problem(file) {
        Ok(p) => Report {
            n: p.n,
            m: p.m,
            k: p.k,
            ..Report::default()
        },
        Err(r) => Report::from(r),
    }
}
