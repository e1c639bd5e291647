//! The worked examples as one theorem, and tests on sample floors, drift sites and piles, through the public calls.
#![tactic(auto)]

#[cfg(test)]
mod books;
#[cfg(test)]
mod bytes;
#[cfg(test)]
mod checking;
#[cfg(test)]
mod extremes;
#[cfg(test)]
mod kinds;
#[cfg(test)]
mod listing;
#[cfg(test)]
mod printing;
#[cfg(test)]
mod reading;
#[cfg(test)]
mod running;
#[cfg(test)]
mod samples;
#[cfg(test)]
mod told;
pub mod worked;
