// Which line of a circuit text a line is, by its number.
ghost use Rattle.std.specs.Prelude.{◌≡◌};
ghost use Rattle.text_faults.specs.Kinds.{kind_of, property_kind, last_kind};

use crate::sizes::Sizes;

// A line of a circuit text; after the gates come the symbols.
#[derive(Clone, Copy)]
pub enum Kind {
    Header,
    Input,
    Latch,
    Output,
    Bad, // a bad literal
    Constraint,
    Count, // how many literals a justice property has
    Justice, // one of them
    Fairness,
    Gate,
    Symbol,
}

// From the counts of the justice properties on, so many lines after the first of them.
#[tactic(auto, unfolding(crate::specs::Kinds::last_kind))]
fn last_kind(s: Sizes, number: usize) -> Kind
    ensures { result ≡ last_kind s number }
{
    let mut left = number;
    if left < s.counts {
        return Kind::Count;
    }
    left -= s.counts;
    if left < s.justice {
        return Kind::Justice;
    }
    left -= s.justice;
    if left < s.fairness {
        return Kind::Fairness;
    }
    left -= s.fairness;
    if left < s.gates {
        return Kind::Gate;
    }
    Kind::Symbol
}

// From the outputs on.
#[tactic(auto, unfolding(crate::specs::Kinds::property_kind))]
fn property_kind(s: Sizes, number: usize) -> Kind
    ensures { result ≡ property_kind s number }
{
    let mut left = number;
    if left < s.outputs {
        return Kind::Output;
    }
    left -= s.outputs;
    if left < s.bads {
        return Kind::Bad;
    }
    left -= s.bads;
    if left < s.constraints {
        return Kind::Constraint;
    }
    last_kind(s, left - s.constraints)
}

// The kind of a line, counted from 1.
#[tactic(auto, unfolding(crate::specs::Kinds::kind_of))]
pub fn kind_of(s: Sizes, number: usize) -> Kind
    ensures { result ≡ kind_of s number }
{
    if number < 2 {
        return Kind::Header;
    }
    let mut left = number - 2;
    if left < s.inputs {
        return Kind::Input;
    }
    left -= s.inputs;
    if left < s.latches {
        return Kind::Latch;
    }
    property_kind(s, left - s.latches)
}
