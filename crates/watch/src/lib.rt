//! Watches: above any site, again a site, which may carry another watch.
#![tactic(auto)]

pub mod dials;
pub mod pile_site;
pub mod piles;
pub mod watches;
pub mod watching;
