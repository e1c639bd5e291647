//! What the programs do, from bytes to bytes and in memory of its own, and why something cannot be done.
#![tactic(auto)]

pub mod books;
pub mod drills;
pub mod failures;
pub mod floors;
pub mod input;
pub mod listings;
mod pairs;
pub mod planned;
pub mod verdicts;
