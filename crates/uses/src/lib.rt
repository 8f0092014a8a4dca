// What the lines of a circuit use: the first that uses a variable that no line defines, or whose gate cannot be worked out from constants,
// inputs and latches.
#![tactic(auto)]

pub mod first;
pub mod gates;
pub mod source;
pub mod stuck;
