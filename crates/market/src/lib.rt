// Market processes: what one market step of a generating unit costs and earns.

#![tactic(auto)]

mod amounts;
mod asking;
mod day_ahead;
mod limits;
mod parts;
mod process;
mod refusal;
mod ruc;
mod ruc_record;

pub use amounts::{Amounts, Figures};
pub use day_ahead::{DayAhead, DayAheadRecord};
pub use limits::{DAY_AHEAD_LIMITS, Limits, RUC_LIMITS};
pub use process::MarketProcess;
pub use refusal::ProcessRefusal;
pub use ruc::Ruc;
pub use ruc_record::RucRecord;
