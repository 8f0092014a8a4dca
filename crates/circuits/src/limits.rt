// 14: more than the limits of a problem, but for its clauses.
ghost use Rattle.std.specs.Prelude.{◌≡◌, ◌+◌, eqb};
ghost use Rattle.circuits.specs.Limits.{over_counts};

// What is counted in two texts: their bytes, the lines of a circuit, its lemmas, and the literals of the longest of them.
#[derive(Clone, Copy)]
pub struct Counted {
    pub text: usize,
    pub lemma_text: usize,
    pub latches: usize,
    pub inputs: usize,
    pub gates: usize,
    pub outputs: usize,
    pub bads: usize,
    pub lemmas: usize,
    pub longest: usize,
}

// One literal in outputs and bad literals together.
fn one_bad(outputs: usize, bads: usize) -> bool
    ensures { result ≡ eqb (outputs + bads) 1 }
{
    matches!((outputs, bads), (0, 1) | (1, 0))
}

// A text over 65,536 bytes; no latch, or more than 96; I + A over 320; other than one literal in outputs and bad literals together; over 128
// lemmas; a lemma of more than 64 literals.
pub fn over_limits(x: Counted) -> bool
    ensures { result ≡ over_counts x }
{
    65536 < x.text
        || 65536 < x.lemma_text
        || x.latches == 0
        || 96 < x.latches
        || 320 < x.inputs
        || 320 - x.inputs < x.gates
        || !one_bad(x.outputs, x.bads)
        || 128 < x.lemmas
        || 64 < x.longest
}
