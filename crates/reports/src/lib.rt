// How offers, their quotes and statements are printed.

#![tactic(auto)]

mod offer;
mod quote;
mod statement;

pub use offer::OfferLines;
pub use quote::{DispatchLines, PointLines};
pub use statement::StatementLines;
