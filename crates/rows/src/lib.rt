// The rows of a listing, written into the lent bytes one behind another.
#![tactic(auto)]

pub mod found; // a row that was found, where it fits
pub mod row; // the row writer
