//! Planning: a book for the covered states of a site and an objection for the open ones.
#![tactic(auto)]

pub mod certifying;
pub mod choosing;
pub mod numbered;
pub mod planning;
pub mod rows;
pub mod writing;
