// The jobs for C and Rust, over a problem file and over a circuit with its lemmas, and nothing else. include/trim.h says the whole contract in
// words.
#![tactic(auto)]

ghost use Rattle.std.specs.Prelude.{◌≡◌, []};
ghost use Rattle.meaning.specs.Calls.{check_call, largest_call, one_call, list_call};
ghost use Rattle.meaning.specs.Circuits.{circuit_check_call, circuit_largest_call, circuit_one_call, circuit_list_call, circuit_problem_call};
ghost use Rattle.problem.specs.Answers.{report_of};
ghost use Rattle.trim_c.specs.Words.{words_of};

use problem::Report;

// A report into the caller's seven words; its number is returned too.
fn fill(r: Report, report: &mut [u64; 7]) -> u32
    ensures { (result ≡ r.number) × (report.new ≡ words_of (report_of r)) }
{
    *report = [
        r.number as u64,
        r.place as u64,
        r.decisions as u64,
        r.rows as u64,
        r.n as u64,
        r.m as u64,
        r.k as u64,
    ];
    r.number
}

// Check a problem file.
#[unsafe(no_mangle)]
pub extern "C" fn trim_check(file: &[u8], report: &mut [u64; 7]) -> u32
    ensures { (result ≡ (check_call file.now 0 []).report.number) × (report.new ≡ words_of (check_call file.now 0 []).report) }
{
    fill(problem::check(file), report)
}

// Mark the largest inductive subset.
#[unsafe(no_mangle)]
pub extern "C" fn trim_largest(
    file: &[u8],
    budget: u32,
    marks: &mut [u8],
    report: &mut [u64; 7],
) -> u32
    ensures { (result ≡ (largest_call file.now budget marks.old).report.number) × (report.new ≡ words_of (largest_call file.now budget marks.old).report) × (marks.new ≡ (largest_call file.now budget marks.old).lent) }
{
    fill(jobs::mark_largest(file, budget, marks), report)
}

// Mark one minimal safe inductive subset.
#[unsafe(no_mangle)]
pub extern "C" fn trim_one(file: &[u8], budget: u32, marks: &mut [u8], report: &mut [u64; 7]) -> u32
    ensures { (result ≡ (one_call file.now budget marks.old).report.number) × (report.new ≡ words_of (one_call file.now budget marks.old).report) × (marks.new ≡ (one_call file.now budget marks.old).lent) }
{
    fill(jobs::mark_one(file, budget, marks), report)
}

// List all minimal safe inductive subsets.
#[unsafe(no_mangle)]
pub extern "C" fn trim_list(file: &[u8], budget: u32, rows: &mut [u8], report: &mut [u64; 7]) -> u32
    ensures { (result ≡ (list_call file.now budget rows.old).report.number) × (report.new ≡ words_of (list_call file.now budget rows.old).report) × (rows.new ≡ (list_call file.now budget rows.old).lent) }
{
    fill(jobs::list_all(file, budget, rows), report)
}

// Check a circuit and its lemmas.
#[unsafe(no_mangle)]
pub extern "C" fn trim_circuit_check(circuit: &[u8], lemmas: &[u8], report: &mut [u64; 7]) -> u32
    ensures { (result ≡ (circuit_check_call circuit.now lemmas.now 0 []).report.number) × (report.new ≡ words_of (circuit_check_call circuit.now lemmas.now 0 []).report) }
{
    fill(circuits::check(circuit, lemmas), report)
}

// Mark the largest inductive subset of a circuit's lemmas.
#[unsafe(no_mangle)]
pub extern "C" fn trim_circuit_largest(
    circuit: &[u8],
    lemmas: &[u8],
    budget: u32,
    marks: &mut [u8],
    report: &mut [u64; 7],
) -> u32
    ensures { (result ≡ (circuit_largest_call circuit.now lemmas.now budget marks.old).report.number) × (report.new ≡ words_of (circuit_largest_call circuit.now lemmas.now budget marks.old).report) × (marks.new ≡ (circuit_largest_call circuit.now lemmas.now budget marks.old).lent) }
{
    fill(
        circuits::mark_largest(circuit, lemmas, budget, marks),
        report,
    )
}

// Mark one minimal safe inductive subset of a circuit's lemmas.
#[unsafe(no_mangle)]
pub extern "C" fn trim_circuit_one(
    circuit: &[u8],
    lemmas: &[u8],
    budget: u32,
    marks: &mut [u8],
    report: &mut [u64; 7],
) -> u32
    ensures { (result ≡ (circuit_one_call circuit.now lemmas.now budget marks.old).report.number) × (report.new ≡ words_of (circuit_one_call circuit.now lemmas.now budget marks.old).report) × (marks.new ≡ (circuit_one_call circuit.now lemmas.now budget marks.old).lent) }
{
    fill(circuits::mark_one(circuit, lemmas, budget, marks), report)
}

// List all minimal safe inductive subsets of a circuit's lemmas.
#[unsafe(no_mangle)]
pub extern "C" fn trim_circuit_list(
    circuit: &[u8],
    lemmas: &[u8],
    budget: u32,
    rows: &mut [u8],
    report: &mut [u64; 7],
) -> u32
    ensures { (result ≡ (circuit_list_call circuit.now lemmas.now budget rows.old).report.number) × (report.new ≡ words_of (circuit_list_call circuit.now lemmas.now budget rows.old).report) × (rows.new ≡ (circuit_list_call circuit.now lemmas.now budget rows.old).lent) }
{
    fill(circuits::list_all(circuit, lemmas, budget, rows), report)
}

// Write the problem file of a circuit and its lemmas.
#[unsafe(no_mangle)]
pub extern "C" fn trim_circuit_problem(
    circuit: &[u8],
    lemmas: &[u8],
    file: &mut [u8],
    report: &mut [u64; 7],
) -> u32
    ensures { (result ≡ (circuit_problem_call circuit.now lemmas.now 0 file.old).report.number) × (report.new ≡ words_of (circuit_problem_call circuit.now lemmas.now 0 file.old).report) × (file.new ≡ (circuit_problem_call circuit.now lemmas.now 0 file.old).lent) }
{
    fill(circuits::problem(circuit, lemmas, file), report)
}
