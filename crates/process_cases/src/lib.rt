// The market processes, executed: both markets, and a third party's process that the interface takes alike.

#![tactic(auto)]

mod metered;
mod net;
mod told;

pub use metered::{Metered, MeteredRecord};
pub use net::net_of;
pub use told::told_of;

#[cfg(test)]
mod curve_tests;
#[cfg(test)]
mod field_tests;
#[cfg(test)]
mod ground_tests;
#[cfg(test)]
mod support;
