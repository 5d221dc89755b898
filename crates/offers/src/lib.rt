// Offer curves of generating units: what the first tenths of a megawatt cost, and how many tenths run at a price.

#![tactic(auto)]

mod adder;
mod block;
mod block_curve;
mod blocks;
mod capped;
mod curve;
mod over;
mod priced;
mod refusal;

pub use adder::Adder;
pub use block::Block;
pub use block_curve::BlockCurve;
pub use capped::Cap;
pub use curve::{HIGHEST_PRICE, HIGHEST_TOP, LOWEST_PRICE, OfferCurve};
pub use over::Over;
pub use priced::{price_of_blocks, price_over};
pub use refusal::{CurveRefusal, Layer, Refusal, Reported};
