// The replay program's text, on byte slices: where a record ends, what its fields hold, and text written to a lent buffer.

#![tactic(auto)]

pub mod decimals;
mod marks;
pub mod names;
pub mod records;
pub mod writing;
