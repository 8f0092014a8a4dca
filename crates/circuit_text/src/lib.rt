// The circuit text, ASCII AIGER of 2007 and of edition 1.9: read where it stands, or refused with the place of the first line at fault.
#![tactic(auto)]

pub mod header;
pub mod properties;
pub mod read;
