//! The reader's part: leaves that say what is covered and what is open, the check of leaves and replies, and
//! runs by them.
#![tactic(auto)]

mod arrows;
mod bounding;
pub mod calls;
pub mod checks;
pub mod descents;
pub mod leaves;
mod pairs;
pub mod playing;
pub mod rounds;
mod rules;
pub mod runs;
