//! Drift sites: a clock that drifts, and settings of it that may be lost.
#![tactic(auto)]

pub mod drift_site;
pub mod drifting;
pub mod drifts;
pub mod places;
