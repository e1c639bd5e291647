//! The covered part of a site and the numbers that its plan is made of, worked out on rows of numbers.
#![tactic(auto)]

mod directions;
mod gaps;
pub mod labels;
pub mod lifting;
pub mod numbering;
pub mod phases;
mod row;
