// Why two texts have no answer.
ghost use Rattle.std.specs.Prelude.{◌≡◌, []};
ghost use Rattle.meaning.specs.Calls.{refusal};
ghost use Rattle.problem.specs.Answers.{report_of};
ghost use Rattle.circuits.specs.declared.refusal.Refusal.TheVariants.{Line};
ghost use Rattle.circuits.specs.Refused.{number_of, place_of};

use lines::fault::Fault;
use problem::Report;

// A line at fault, of the circuit or of the lemmas; more than the limits; a justice property or a fairness constraint; or a problem file that
// does not fit the bytes that are lent.
#[derive(Clone, Copy)]
pub enum Refusal {
    Line(Fault),
    Limits,
    Liveness,
    Room,
}

impl Refusal {
    // The number that a report gives it.
    pub fn number(self) -> u32
        ensures { result ≡ number_of self }
    {
        match self {
            Refusal::Line(_) => 13,
            Refusal::Limits => 14,
            Refusal::Liveness => 15,
            Refusal::Room => 12,
        }
    }

    // The place that a report gives it: where the line at fault starts, and else 0.
    pub fn place(self) -> usize
        ensures { result ≡ place_of self }
    {
        match self {
            Refusal::Line(f) => f.at,
            _ => 0,
        }
    }
}

impl From<Fault> for Refusal {
    ghost from_gives = { λ fault r. r ≡ Line fault };

    fn from(fault: Fault) -> Refusal {
        Refusal::Line(fault)
    }
}

impl From<Refusal> for Report {
    ghost from_gives = { λ r report. report_of report ≡ (refusal (number_of r) (place_of r) 0 0 []).report };

    fn from(r: Refusal) -> Report {
        Report::refused(r.number(), r.place(), 0, 0)
    }
}
