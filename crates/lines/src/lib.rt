// Lines of a text and the numbers on them, read in place: what the circuit text and the lemma text are made of. A number may have any size, so
// it is kept as its digits, with its value as far as that is below HUGE.
#![tactic(auto)]

pub mod compare;
pub mod fault;
pub mod line;
pub mod literal;
pub mod number;
