// The words of a command line of the program `trim`, read one after another into an order.
#![tactic(auto)]

mod order;
mod taking;

pub use order::{Fault, Job, Order, begin};
pub use taking::{finish, is_file, is_input, is_lemmas, take};
