// The public jobs over the questions of `search`: mark the largest inductive subset, mark one minimal safe inductive subset, list all of them.
#![tactic(auto)]

mod listing;
mod marks;

pub use listing::list_all;
pub use marks::{mark_largest, mark_one};
