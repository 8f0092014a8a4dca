// The job that an order asks for, done, and the lines that are told of its outcome.
#![tactic(auto)]

pub mod doing; // the job
pub mod lines; // the lines
