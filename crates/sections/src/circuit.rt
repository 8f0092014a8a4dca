// A circuit as it stands in its text.
use crate::find::Lines;

// The lines between latches and gates: outputs, bad literals, constraints, the counts of the justice properties, their literals, fairness.
#[derive(Clone, Copy)]
pub struct Properties {
    pub outputs: Lines,
    pub bads: Lines,
    pub constraints: Lines,
    pub counts: Lines,
    pub justice: Lines,
    pub fairness: Lines,
}

// The lines of its inputs, latches and gates, and what stands between.
#[derive(Clone, Copy)]
pub struct Circuit {
    pub inputs: Lines,
    pub latches: Lines,
    pub properties: Properties,
    pub gates: Lines,
}
