// What is wrong with a problem file, by a refusal's number and what stands at its place; of any bytes, where those past the end read as 0.
#![tactic(auto)]

pub mod places; // what stands at a place, and the record around it
pub mod wrong; // what is wrong, and its words
