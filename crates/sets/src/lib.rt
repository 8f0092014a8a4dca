// Sets of positions, picked by the questions of `search`: rounds, the largest set, the safety of a set, the one set, and the questions of a node.
#![tactic(auto)]

pub mod members; // how many positions a set has
pub mod picks; // the largest set and the one set
pub mod questions; // a question for each position of a set
pub mod rounds; // sifting and Rounds
