// The records of a unit, by the numbers of their lines.

ghost use Rattle.std.specs.Prelude.{◌≡◌, map};
ghost use Rattle.quotes.specs.Records.{day_ahead_of, ruc_of};

use super::fault::LineFault;
use super::lines::number;
use market::{DayAheadRecord, RucRecord};

pub(crate) fn day_ahead_of(words: &[&str]) -> Result<DayAheadRecord, LineFault>
    ensures { result ≡ day_ahead_of (map (λ x. x.now) words.now) }
{
    match words {
        [cleared, price, no_load, reserve_cost, reserve_revenue] => Ok(DayAheadRecord {
            cleared: number(cleared)?,
            price: number(price)?,
            no_load: number(no_load)?,
            reserve_cost: number(reserve_cost)?,
            reserve_revenue: number(reserve_revenue)?,
        }),
        _ => Err(LineFault::WordCount),
    }
}

pub(crate) fn ruc_of(words: &[&str]) -> Result<RucRecord, LineFault>
    ensures { result ≡ ruc_of (map (λ x. x.now) words.now) }
{
    match words {
        [
            commitment_minimum,
            minimum_now,
            maximum,
            setpoint,
            actual,
            tolerance,
            price,
            no_load,
            non_dispatchable,
            other_revenue,
            reserve_cost,
        ] => Ok(RucRecord {
            commitment_minimum: number(commitment_minimum)?,
            minimum_now: number(minimum_now)?,
            maximum: number(maximum)?,
            setpoint: number(setpoint)?,
            actual: number(actual)?,
            tolerance: number(tolerance)?,
            price: number(price)?,
            no_load: number(no_load)?,
            non_dispatchable: number(non_dispatchable)?,
            other_revenue: number(other_revenue)?,
            reserve_cost: number(reserve_cost)?,
        }),
        _ => Err(LineFault::WordCount),
    }
}
