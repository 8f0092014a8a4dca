// What the program tells of a circuit text or a lemma text that is refused: texts alone, each on a page that the caller lends. Each answers how
// long the text is; where it doesn't fit, one more than the page has.
#![tactic(auto)]

mod causes; // what is wrong with a line
mod limits; // which limit
mod liveness; // justice and fairness
mod refusals; // the whole refusal

pub use refusals::text_refusal;
