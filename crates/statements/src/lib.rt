// The statement of a unit: what its Day-Ahead hour and its RUC interval cost and earn on its offers.

#![tactic(auto)]

mod settling;
mod statement;

pub use settling::settle_unit;
pub use statement::{RucStatement, Statement};
