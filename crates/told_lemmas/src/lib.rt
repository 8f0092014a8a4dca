// What the program tells of a candidate lemma, on a page that the caller lends.
#![tactic(auto)]

mod lemmas;

pub use lemmas::lemma_line;
