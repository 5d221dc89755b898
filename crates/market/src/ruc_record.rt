// The record of a RUC interval: its fields, and what they say of its costs.

ghost use Rattle.std.specs.Prelude.{◌≡◌, pos, if◌then◌else◌, unsigned_abs};
ghost use Rattle.market.specs.Amounts.{interval_cost, interval_revenue};
ghost use Rattle.market.specs.Laws.{Within};
ghost use Rattle.market.specs.Limits.{AllAdmitted};
ghost use Rattle.market.specs.Parts.{Priced};
ghost use Rattle.market.specs.Reliability.{ruc_fields, ruc_limits, ruc_field_refusal, held_output, within_reach, off_setpoint, non_dispatchable, minimum_raised, disallowed_by, energy_of, excess_of, amounts_by};
ghost use Rattle.market.specs.Curves.{PassedOn};

use super::amounts::Amounts;
use super::limits::{Limits, RUC_LIMITS, check_fields};
use super::parts::{CostParts, RevenueParts};
use super::refusal::ProcessRefusal;

// One interval of a unit. Powers and the tolerance are in tenths, the price in cents per MWh, the no-load offer in cents an
// hour, other revenue and reserve cost in ticks. Any numbers may stand in it, so the mark of a non-dispatchable unit is one
// too, 0 or 1: another is refused by its field.
#[derive(Clone, Copy, Debug, PartialEq, Eq)]
pub struct RucRecord {
    pub commitment_minimum: i64,
    pub minimum_now: i64,
    pub maximum: i64,
    pub setpoint: i64,
    pub actual: i64,
    pub tolerance: i64,
    pub price: i64,
    pub no_load: i64,
    pub non_dispatchable: i64,
    pub other_revenue: i64,
    pub reserve_cost: i64,
}

impl RucRecord {
    // The fields in the order of their numbers, from 1. Each record lists its own: over a trait with N fields the check asks of
    // every N that the arrays fit memory.
    fn fields(&self) -> [i64; 11]
        ensures { result ≡ ruc_fields self.now }
    {
        [
            self.commitment_minimum,
            self.minimum_now,
            self.maximum,
            self.setpoint,
            self.actual,
            self.tolerance,
            self.price,
            self.no_load,
            self.non_dispatchable,
            self.other_revenue,
            self.reserve_cost,
        ]
    }

    // The rows of the fields: the maximum may not be below the commitment minimum.
    fn limits(&self) -> [Limits; 11]
        ensures { result ≡ ruc_limits self.now }
    {
        let mut limits = RUC_LIMITS;
        limits[2].lowest = limits[2].lowest.max(self.commitment_minimum);
        limits
    }

    // The record as one whose fields are within their limits, or the refusal of the first that is not.
    pub(crate) fn limited(&self) -> Result<LimitedInterval, ProcessRefusal>
        ensures { PassedOn result (λ limited. limited.fields) (ruc_field_refusal self.now) self.now }
    {
        check_fields(self.fields(), self.limits())?;
        Ok(LimitedInterval { fields: *self })
    }
}

// A record whose fields are within their limits.
#[derive(Clone, Copy)]
pub(crate) struct LimitedInterval {
    fields: RucRecord,
    ghost limited: { AllAdmitted (ruc_limits fields) (ruc_fields fields) },
}

impl LimitedInterval {
    // In cents per MWh.
    pub(crate) fn price(&self) -> i64
        ensures { result ≡ self.now.fields.price }
    {
        self.fields.price
    }

    // The commitment minimum, the maximum and the actual output, in tenths.
    pub(crate) fn least(&self) -> u64
        ensures { result ≡ unsigned_abs self.now.fields.commitment_minimum }
    {
        self.fields.commitment_minimum.unsigned_abs()
    }

    pub(crate) fn most(&self) -> u64
        ensures { result ≡ unsigned_abs self.now.fields.maximum }
    {
        self.fields.maximum.unsigned_abs()
    }

    pub(crate) fn output(&self) -> u64
        ensures { result ≡ unsigned_abs self.now.fields.actual }
    {
        self.fields.actual.unsigned_abs()
    }

    // The part of the output up to the commitment minimum.
    pub(crate) fn held(&self) -> u64
        ensures { result ≡ held_output self.now.fields }
    {
        self.output().min(self.least())
    }

    // A power raised to the commitment minimum or lowered to the maximum.
    pub(crate) fn nearest(&self, tenths: u64) -> u64
        ensures { result ≡ within_reach self.now.fields tenths }
    {
        tenths.max(self.least()).min(self.most())
    }

    // What the interval costs, in ticks, where its energy costs so much. Each record hands its own fields to the parts that
    // both share, as below for revenue; a trait would only name the fields once more.
    fn cost(&self, energy: i64) -> i64
        requires { Within 3000000000 energy }
        ensures { result ≡ interval_cost energy self.now.fields.no_load self.now.fields.reserve_cost }
    {
        let parts = CostParts {
            energy,
            no_load: self.fields.no_load,
            reserve: self.fields.reserve_cost,
        };
        parts.ticks()
    }

    // What the interval earns, in ticks.
    fn revenue(&self) -> i64
        ensures { result ≡ interval_revenue self.now.fields.actual self.now.fields.price self.now.fields.other_revenue }
    {
        let parts = RevenueParts {
            power: self.fields.actual,
            price: self.fields.price,
            other: self.fields.other_revenue,
        };
        parts.ticks()
    }

    // The first ground: the output lies outside the tolerance about the setpoint.
    fn off_setpoint(&self) -> bool
        ensures { result ≡ off_setpoint self.now.fields }
    {
        self.fields.actual.abs_diff(self.fields.setpoint) > self.fields.tolerance.unsigned_abs()
    }

    // The second: the unit could not be dispatched.
    fn is_non_dispatchable(&self) -> bool
        ensures { result ≡ non_dispatchable self.now.fields }
    {
        self.fields.non_dispatchable == 1
    }

    // The third: the minimum was raised beyond the tolerance after the commitment, and the second does not hold.
    fn minimum_raised(&self) -> bool
        ensures { result ≡ minimum_raised self.now.fields }
    {
        self.fields.minimum_now - self.fields.commitment_minimum > self.fields.tolerance
            && !self.is_non_dispatchable()
    }

    // Each ground that holds disallows the excess.
    fn disallowed(&self, excess: i64) -> i64
        requires { Within 2000000000 excess }
        ensures { result ≡ disallowed_by self.now.fields excess }
    {
        let first = ticks_if(self.off_setpoint(), excess);
        let second = ticks_if(self.is_non_dispatchable(), excess);
        let third = ticks_if(self.minimum_raised(), excess);
        first + second + third
    }

    // The amounts of the interval, where its tenths cost so much.
    pub(crate) fn amounts(&self, costs: RucCosts) -> Amounts
        ensures { result ≡ amounts_by (energy_of costs.committed costs.actual costs.replaced) (excess_of costs.actual costs.economic) self.now.fields }
    {
        Amounts {
            cost: self.cost(costs.energy()),
            revenue: self.revenue(),
            disallowed: self.disallowed(costs.excess()),
        }
    }
}

// So many ticks where a ground holds, and otherwise none.
fn ticks_if(holds: bool, ticks: i64) -> i64
    requires { Within 2000000000 ticks }
    ensures value { result ≡ (if holds then ticks else pos 0) }
    ensures modest { Within 2000000000 result }
{
    if holds { ticks } else { 0 }
}

// What an interval's tenths cost, in ticks: the part up to the commitment minimum by the curve of the commitment decision and
// by the current one, which it replaces; the actual output and the economic operating point by the current curve.
#[derive(Clone, Copy)]
pub(crate) struct RucCosts {
    pub(crate) committed: i64,
    pub(crate) replaced: i64,
    pub(crate) actual: i64,
    pub(crate) economic: i64,
    ghost priced: { Priced committed replaced actual economic },
}

impl RucCosts {
    // The held output as the commitment was decided, and the rest as it is offered now.
    fn energy(&self) -> i64
        ensures value { result ≡ energy_of self.now.committed self.now.actual self.now.replaced }
        ensures modest { Within 3000000000 result }
    {
        let beyond = self.actual - self.replaced;
        self.committed + beyond
    }

    // What the output costs beyond the economic operating point.
    fn excess(&self) -> i64
        ensures value { result ≡ excess_of self.now.actual self.now.economic }
        ensures modest { Within 2000000000 result }
    {
        let beyond = self.actual - self.economic;
        beyond.max(0)
    }
}
