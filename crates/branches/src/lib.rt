// The nodes of a listing, each with the two below it.
#![tactic(auto)]

pub mod nodes; // the nodes
