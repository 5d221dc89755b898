// The Day-Ahead Market: an hour cleared the day before.

ghost use Rattle.std.specs.Prelude.{◌≡◌, pos, ◌*ℤ◌, ◌↔◌, IsOk, unsigned_abs};
ghost use Rattle.std.proofs.Common.{rules};
ghost use Rattle.market.specs.Amounts.{interval_cost, interval_revenue};
ghost use Rattle.market.specs.DayAhead.{day_ahead_figures, day_ahead_fields, day_ahead_limits, day_ahead_field_refusal, day_ahead_refusal, hour_amounts, day_ahead_meaning, DayAheadTaken};
ghost use Rattle.market.specs.Hours.{hour-lawful};
ghost use Rattle.market.specs.Laws.{Within};
ghost use Rattle.market.specs.Limits.{AllAdmitted};
ghost use Rattle.market.specs.Curves.{PassedOn};

use super::amounts::Amounts;
use super::asking::{check_tenth, cost_of};
use super::limits::{DAY_AHEAD_LIMITS, check_fields};
use super::parts::{CostParts, RevenueParts};
use super::process::MarketProcess;
use super::refusal::ProcessRefusal;
use offers::OfferCurve;

// One hour of a unit: the power cleared in tenths, its price in cents per MWh, the no-load offer in cents an hour, cost and
// revenue of reserve in ticks an interval. Any numbers may stand in it.
#[derive(Clone, Copy, Debug, PartialEq, Eq)]
pub struct DayAheadRecord {
    pub cleared: i64,
    pub price: i64,
    pub no_load: i64,
    pub reserve_cost: i64,
    pub reserve_revenue: i64,
}

impl DayAheadRecord {
    // The fields in the order of their numbers, from 1. Each record lists its own: over a trait with N fields the check asks of
    // every N that the arrays fit memory.
    fn fields(&self) -> [i64; 5]
        ensures { result ≡ day_ahead_fields self.now }
    {
        [
            self.cleared,
            self.price,
            self.no_load,
            self.reserve_cost,
            self.reserve_revenue,
        ]
    }

    // The record as one whose fields are within their limits, or the refusal of the first that is not.
    fn limited(&self) -> Result<LimitedHour, ProcessRefusal>
        ensures { PassedOn result (λ limited. limited.fields) (day_ahead_field_refusal self.now) self.now }
    {
        check_fields(self.fields(), DAY_AHEAD_LIMITS)?;
        Ok(LimitedHour { fields: *self })
    }
}

// A record whose fields are within their limits.
#[derive(Clone, Copy)]
struct LimitedHour {
    fields: DayAheadRecord,
    ghost limited: { AllAdmitted day_ahead_limits (day_ahead_fields fields) },
}

impl LimitedHour {
    // The power cleared, in tenths.
    fn tenths(&self) -> u64
        ensures { result ≡ unsigned_abs self.now.fields.cleared }
    {
        self.fields.cleared.unsigned_abs()
    }

    // What an interval of the hour costs, in ticks, where its energy costs so much. Each record hands its own fields to the
    // parts that both share, as below for revenue; a trait would only name the fields once more.
    fn cost(&self, energy: i64) -> i64
        requires { Within 1000000000 energy }
        ensures value { result ≡ interval_cost energy self.now.fields.no_load self.now.fields.reserve_cost }
        ensures modest { Within 3500000000 result }
    {
        let parts = CostParts {
            energy,
            no_load: self.fields.no_load,
            reserve: self.fields.reserve_cost,
        };
        parts.ticks()
    }

    // What an interval of the hour earns, in ticks.
    fn revenue(&self) -> i64
        ensures value { result ≡ interval_revenue self.now.fields.cleared self.now.fields.price self.now.fields.reserve_revenue }
        ensures modest { Within 3500000000 result }
    {
        let parts = RevenueParts {
            power: self.fields.cleared,
            price: self.fields.price,
            other: self.fields.reserve_revenue,
        };
        parts.ticks()
    }

    // Twelve intervals of cost and revenue; nothing is disallowed.
    fn amounts(&self, energy: i64) -> Amounts
        requires { Within 1000000000 energy }
        ensures { result ≡ hour_amounts energy self.now.fields }
    {
        Amounts {
            cost: hourly(self.cost(energy)),
            revenue: hourly(self.revenue()),
            disallowed: 0,
        }
    }
}

// What an interval's amount comes to in an hour.
fn hourly(ticks: i64) -> i64
    requires { Within 3500000000 ticks }
    ensures { result ≡ pos 12 *ℤ ticks }
{
    12 * ticks
}

// The process of a unit that offered along this curve.
#[derive(Drop)]
pub struct DayAhead<C> {
    pub curve: C,
}

impl<C: OfferCurve> DayAhead<C> {
    // Fields first; then the power cleared has to lie on the curve.
    #[tactic(auto, unfolding(crate::specs::DayAhead::day_ahead_refusal))]
    fn check(&self, step: &DayAheadRecord) -> Result<LimitedHour, ProcessRefusal>
        ensures { PassedOn result (λ limited. limited.fields) (day_ahead_refusal (C.OfferCurve.prices self.now.curve) step.now) step.now }
    {
        let hour = step.limited()?;
        check_tenth(&self.curve, hour.tenths())?;
        Ok(hour)
    }
}

impl<C: OfferCurve> MarketProcess for DayAhead<C> {
    type Record = DayAheadRecord;

    const NUMBER: u8 = 1;

    const LENGTH: u64 = 12;

    const TAKES_OVER: bool = true;

    const POT: u8 = 0;

    ghost NUMBER = { day_ahead_figures.number };

    ghost LENGTH = { day_ahead_figures.length };

    ghost TAKES_OVER = { day_ahead_figures.takes_over };

    ghost POT = { day_ahead_figures.pot };

    ghost meaning = { λ p x. day_ahead_meaning (C.OfferCurve.prices p.curve) x };

    ghost lawful = { Prim.search rules };

    ghost bounded = { λ p x. hour-lawful (C.OfferCurve.prices p.curve) x (C.OfferCurve.lawful p.curve) };

    #[tactic(auto, using(crate::specs::Hours::taken_hour, crate::specs::Hours::hour_taken))]
    fn settle(&self, step: &DayAheadRecord) -> Result<Amounts, ProcessRefusal>
        ensures value { result ≡ day_ahead_meaning (C.OfferCurve.prices self.now.curve) step.now }
        ensures taken { IsOk result ↔ DayAheadTaken (C.OfferCurve.prices self.now.curve) step.now }
    {
        let hour = self.check(step)?;
        let energy = cost_of(&self.curve, hour.tenths());
        Ok(hour.amounts(energy))
    }
}
