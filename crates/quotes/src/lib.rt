// An energy offer as text, and its quote: prices and costs along its curve, and the tenths that run at market prices. A unit
// as text: its offers, and the records of its market steps.

#![tactic(auto)]

mod capped_blocks;
mod fault;
mod lines;
mod offer;
mod piled;
mod pricing;
mod readings;
mod records;
mod unit;
mod unit_fault;
mod unit_lines;

pub use capped_blocks::CappedBlocks;
pub use fault::{LineFault, OfferFault};
pub use offer::{Offer, Pile, read_offer};
pub use piled::PiledCurve;
pub use pricing::{Dispatch, Point, Quote, block_curve, price_offer};
pub use unit::{Unit, read_unit};
pub use unit_fault::UnitFault;
