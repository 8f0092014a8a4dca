// Both texts read: 13 of the circuit, 13 of the lemmas, 15, 14; or the problem built, as a file.
ghost use Rattle.std.specs.Prelude.{◌≡◌, ◌≤◌, length};
ghost use Rattle.sections.specs.Whole.{Whole, circuit_at};
ghost use Rattle.meaning.specs.CircuitText.{read_circuit_text, right};
ghost use Rattle.circuits.specs.Limits.{liveness};
ghost use Rattle.circuits.specs.Reading.{Judged, FiledAs};

use crate::limits::{Counted, over_limits};
use crate::refusal::Refusal;
use built::write_problem;
use circuit_text::read::read_circuit;
use clause_count::clause_count;
use lemma_text::read_lemmas;
use sections::circuit::{Circuit, Properties};

// Whether there is a justice property or a fairness constraint.
fn has_liveness(p: Properties) -> bool
    ensures { result ≡ liveness p }
{
    0 < p.counts.count || 0 < p.fairness.count
}

// The lemmas of a circuit that is read, and the limits: the circuit again, where its problem is within them.
fn judge(text: &[u8], c: Circuit, lemmas: &[u8]) -> Result<Circuit, Refusal>
    requires whole { Whole text.now c }
    requires text_value { read_circuit_text text.now ≡ right (circuit_at text.now c) }
    ensures { Judged text.now lemmas.now result }
{
    // A match, and no `?`: what a fault of the lemmas is told as stands here, before the limits.
    let found = match read_lemmas(lemmas, c.latches.count) {
        Ok(found) => found,
        Err(fault) => return Err(Refusal::Line(fault)),
    };
    if has_liveness(c.properties) {
        return Err(Refusal::Liveness);
    }
    if over_limits(Counted {
        text: text.len(),
        lemma_text: lemmas.len(),
        latches: c.latches.count,
        inputs: c.inputs.count,
        gates: c.gates.count,
        outputs: c.properties.outputs.count,
        bads: c.properties.bads.count,
        lemmas: found.count,
        longest: found.longest,
    }) {
        return Err(Refusal::Limits);
    }
    if 4096 < clause_count(text, c) + found.count {
        return Err(Refusal::Limits);
    }
    Ok(c)
}

fn read_texts(text: &[u8], lemmas: &[u8]) -> Result<Circuit, Refusal>
    ensures { Judged text.now lemmas.now result }
{
    let c = read_circuit(text)?;
    judge(text, c, lemmas)
}

// The problem file of two texts, from the first byte on, and how long it is.
pub fn file_of(text: &[u8], lemmas: &[u8], out: &mut [u8]) -> Result<usize, Refusal>
    requires { 46220 ≤ length out.old }
    ensures { FiledAs text.now lemmas.now out.new result }
{
    let c = read_texts(text, lemmas)?;
    Ok(write_problem(text, c, lemmas, out))
}
