// The first gate line that cannot be worked out.
ghost use Rattle.std.specs.Prelude.{◌≡◌, Bool, ◌<◌, ◌≤◌, ℕ, suc, length, replicate};
ghost use Rattle.meaning.specs.CircuitText.{first_not, uses_fault};
ghost use Rattle.sections.specs.Lists.{line_after};
ghost use Rattle.sections.specs.Whole.{Whole, circuit_at, lines_of, properties_of, sections_of};
ghost use Rattle.lines.specs.Faults.{fault_of};
ghost use Rattle.uses.specs.Solve.{is_done};
ghost use Rattle.uses.specs.Fill.{Filled};
ghost use Rattle.uses.specs.Stuck.{gate_passes, properties_fault, Distinct, MarksAre};

use crate::first::first_unknown;
use crate::gates::Gates;
use crate::source::source;
use lines::fault::Fault;
use lines::line::next_line;
use sections::circuit::Circuit;
use sections::find::Lines;
use sections::nth::nth;

fn narrow(x: usize) -> u16
    requires { x < 65536 }
    ensures { result ≡ x }
{
    x as u16
}

fn no_sources() -> [u16; 10923]
    ensures { length result ≡ 10923 }
{
    [0; 10923]
}

fn nothing_done() -> [u8; 10925]
    ensures { result ≡ replicate 10925 0 }
{
    [0; 10925]
}

// Where number j of each gate line comes from: one more than the number of gates, which is never worked out, where it comes from nowhere.
fn fill(text: &[u8], c: Circuit, j: usize, out: &mut [u16; 10923])
    requires whole { Whole text.now c }
    requires count_bound { c.gates.count ≤ 10922 }
    requires j_bound { j < 3 }
    requires out_len { length out.old ≡ 10923 }
    ensures { Filled text.now c j out.new c.gates.count }
{
    let none = c.gates.count + 1;
    let mut p = c.gates.at;
    for i in 0..c.gates.count {
        let x = nth(text, p, j);
        out[i] = narrow(source(text, c, &x).unwrap_or(none));
        p = next_line(text, p);
    }
}

// The first gate line whose mark says that it is not worked out.
fn first_stuck(text: &[u8], c: Circuit, done: &[u8; 10925]) -> Result<(), Fault>
    requires whole { Whole text.now c }
    requires count_bound { c.gates.count ≤ 10922 }
    requires marks_are { MarksAre text.now c done.now }
    ensures { result ≡ fault_of (first_not (gate_passes (circuit_at text.now c)) (lines_of text.now c.gates)) }
{
    let mut p = c.gates.at;
    for i in 0..c.gates.count {
        if done[i + 1] == 0 {
            return Err(Fault { at: p });
        }
        p = next_line(text, p);
    }
    Ok(())
}

// The gates: where their literals come from, then rounds until none is worked out, then the first that is left.
fn gates_fault(text: &[u8], c: Circuit) -> Result<(), Fault>
    requires whole { Whole text.now c }
    requires count_bound { c.gates.count ≤ 10922 }
    requires distinct { Distinct (circuit_at text.now c) }
    ensures { result ≡ fault_of (first_not (gate_passes (circuit_at text.now c)) (lines_of text.now c.gates)) }
{
    let mut left = no_sources();
    let mut right = no_sources();
    fill(text, c, 1, &mut left);
    fill(text, c, 2, &mut right);
    let mut done = nothing_done();
    done[0] = 1;
    let gates = Gates {
        left: &left,
        right: &right,
        count: c.gates.count,
    };
    gates.solve(&mut done);
    first_stuck(text, c, &done)
}

// The first line between latches and gates that uses a variable that no line defines.
fn properties_fault(text: &[u8], c: Circuit) -> Result<(), Fault>
    requires { Whole text.now c }
    ensures { result ≡ fault_of (properties_fault (circuit_at text.now c) (properties_of text.now c.properties)) }
{
    first_unknown(text, c, c.properties.outputs, 0)?;
    first_unknown(text, c, c.properties.bads, 0)?;
    first_unknown(text, c, c.properties.constraints, 0)?;
    first_unknown(text, c, c.properties.justice, 0)?;
    first_unknown(text, c, c.properties.fairness, 0)
}

// The first line that uses a variable that no line defines, or whose gate cannot be worked out.
pub fn uses_fault(text: &[u8], c: Circuit) -> Result<(), Fault>
    requires whole { Whole text.now c }
    requires count_bound { c.gates.count ≤ 10922 }
    requires distinct { Distinct (circuit_at text.now c) }
    ensures { result ≡ fault_of (uses_fault (circuit_at text.now c) (sections_of text.now c)) }
{
    first_unknown(text, c, c.latches, 1)?;
    properties_fault(text, c)?;
    gates_fault(text, c)
}
