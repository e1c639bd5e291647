//! Sites: finite games between a controller and a floor, their refusals, and sites read off tables.
#![tactic(auto)]

pub mod faults;
pub mod grades;
pub mod interface;
pub mod making;
pub mod sheets;
pub mod table_site;
pub mod tables;
