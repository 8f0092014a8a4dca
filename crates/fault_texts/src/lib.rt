// What is wrong with a refused file, in plain words, on a page that the caller lends.
#![tactic(auto)]

mod texts;

pub use texts::put_fault;
