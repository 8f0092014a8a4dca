// The jobs: any two texts, any budget, any length of lent bytes.
ghost use Rattle.std.specs.Prelude.{◌≡◌, [], length};
ghost use Rattle.meaning.specs.Calls.{on_reading};
ghost use Rattle.meaning.specs.Circuits.{read_circuit, circuit_check_call, circuit_largest_call, circuit_one_call, circuit_list_call, circuit_problem_call};
ghost use Rattle.problem.specs.Answers.{report_of};
ghost use Rattle.circuits.specs.Asked.{Job, Does};
ghost use Rattle.circuits.specs.Handed.{handed_over};
ghost use Rattle.jobs.specs.Outcome.{outcome_of};

use crate::reading::file_of;
use crate::refusal::Refusal;
use problem::Report;

// As many bytes as the file of a circuit's problem may take.
fn room() -> [u8; 46220]
    ensures { length result ≡ 46220 }
{
    [0; 46220]
}

// A job on the problem file of two texts, which is written into bytes of this room's own, and on what is lent; or their refusal.
fn asked<F: FnOnce(&[u8], &mut [u8]) -> Report>(
    circuit: &[u8],
    lemmas: &[u8],
    lent: &mut [u8],
    job: F,
) -> Report
    requires { F.IsAlwaysCallable job }
    ensures { (call : Job) → Does circuit.now lemmas.now lent.old call (F.post job) → outcome_of result lent.new ≡ on_reading (read_circuit circuit.now lemmas.now) call lent.old }
{
    let mut file = room();
    match file_of(circuit, lemmas, &mut file) {
        Ok(len) => job(&file[..len], lent),
        Err(r) => Report::from(r),
    }
}

// Check a circuit and its lemmas.
pub fn check(circuit: &[u8], lemmas: &[u8]) -> Report
    ensures { report_of result ≡ (circuit_check_call circuit.now lemmas.now 0 []).report }
{
    asked(circuit, lemmas, &mut [], |file, _| problem::check(file))
}

// Mark the largest inductive subset.
pub fn mark_largest(circuit: &[u8], lemmas: &[u8], budget: u32, marks: &mut [u8]) -> Report
    ensures { outcome_of result marks.new ≡ circuit_largest_call circuit.now lemmas.now budget marks.old }
{
    asked(
        circuit,
        lemmas,
        marks,
        |file, lent| jobs::mark_largest(file, budget, lent),
    )
}

// Mark one minimal safe inductive subset.
pub fn mark_one(circuit: &[u8], lemmas: &[u8], budget: u32, marks: &mut [u8]) -> Report
    ensures { outcome_of result marks.new ≡ circuit_one_call circuit.now lemmas.now budget marks.old }
{
    asked(
        circuit,
        lemmas,
        marks,
        |file, lent| jobs::mark_one(file, budget, lent),
    )
}

// List all minimal safe inductive subsets.
pub fn list_all(circuit: &[u8], lemmas: &[u8], budget: u32, rows: &mut [u8]) -> Report
    ensures { outcome_of result rows.new ≡ circuit_list_call circuit.now lemmas.now budget rows.old }
{
    asked(
        circuit,
        lemmas,
        rows,
        |file, lent| jobs::list_all(file, budget, lent),
    )
}

// A problem file that is lent, into the bytes of the caller: 12 where it does not fit.
fn hand_over(own: &[u8], file: &mut [u8]) -> Report
    ensures { outcome_of result file.new ≡ handed_over own.now file.old }
{
    if file.len() < own.len() {
        return Report::from(Refusal::Room);
    }
    let checked = problem::check(own);
    file[..own.len()].copy_from_slice(own);
    Report {
        rows: own.len(),
        n: checked.n,
        m: checked.m,
        k: checked.k,
        ..Report::default()
    }
}

// Write the problem file itself.
pub fn problem(circuit: &[u8], lemmas: &[u8], file: &mut [u8]) -> Report
    ensures { outcome_of result file.new ≡ circuit_problem_call circuit.now lemmas.now 0 file.old }
{
    asked(circuit, lemmas, file, |own, lent| hand_over(own, lent))
}
