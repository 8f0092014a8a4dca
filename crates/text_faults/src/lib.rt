// What is wrong with a circuit text or a lemma text at a place, in a word that a person can be told: which line stands there, and why it is
// refused. Nothing is assumed of the text or of the place.
#![tactic(auto)]

pub mod cause; // why a line of a circuit text is refused
pub mod circuit; // the line of a circuit text at a place
pub mod definers; // which lines define a variable
pub mod kind; // header, input, latch, output and so on to symbol
mod latch; // why a latch line is refused
pub mod lemmas; // the line of a lemma text at a place
pub mod limits; // which limit two texts are over
pub mod liveness; // how many justice and fairness properties a circuit text has
pub mod places; // where lines are
pub mod sizes; // how many lines of each kind
