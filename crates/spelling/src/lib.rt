// One word by itself: what it is as a number, and how it starts.
#![tactic(auto)]

mod compare;
mod number;

pub use compare::{is_circuit, is_option};
pub use number::{NumberFault, read_number};
