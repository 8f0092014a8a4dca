// The jobs over circuits: two texts in place of a problem file. The problem that is built is written as a file into bytes of this room's own,
// and handed to the jobs that stand.
#![tactic(auto)]

mod asked;
pub mod limits;
pub mod reading;
pub mod refusal;

pub use asked::{check, list_all, mark_largest, mark_one, problem};
