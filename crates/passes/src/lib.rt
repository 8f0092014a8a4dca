// A pass over clauses that stand in a problem file: what each comes to at a setting, and what the pass has found.
#![tactic(auto)]

use format::Literal;

mod clauses; // a pass over clauses
mod values; // the entries of a setting

pub use clauses::{sweep_denied, sweep_marked, sweep_records};
pub use values::set_true;

// What a clause comes to at a setting: a true literal; only false ones; or no true one and an unset literal at one place, or at more, with the
// first of them.
#[derive(Clone, Copy)]
enum Status {
    Holds,
    Fails,
    One(Literal),
    More(Literal),
}

// What a pass has found so far: every clause has a true literal; literals were forced, and are set; a clause has only false ones; a literal to try.
#[derive(Clone, Copy)]
pub enum Tally {
    Satisfied,
    Forced,
    Closed,
    Try(Literal),
}
