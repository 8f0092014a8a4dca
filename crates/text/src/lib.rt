// Texts made of a job's answer, on a page that the caller lends.
#![tactic(auto)]

mod filled;
mod listing;
mod page;

pub use listing::{listing_text, put_row, row_end};
pub use page::Page;
