// The lines of inputs, latches, outputs and gates of a circuit text, read one after another: at fault is the first that is not right by itself
// or beside earlier lines. Nothing is copied: a section is a place and a number of lines.
#![tactic(auto)]

pub mod circuit;
pub mod find;
pub mod line;
pub mod nth;
pub mod read;
