// Reliability Unit Commitment (RUC): an interval of a unit that was committed after the Day-Ahead Market.

ghost use Rattle.std.specs.Prelude.{◌≡◌, ◌↔◌, IsOk};
ghost use Rattle.std.proofs.Common.{rules};
ghost use Rattle.offers.specs.Answers.{unless};
ghost use Rattle.market.specs.Intervals.{interval-lawful};
ghost use Rattle.market.specs.Reliability.{ruc_figures, ruc_refusal, energy_of, energy_cost, economic_point, excess_of, excess_cost, ruc_meaning, RucTaken};
ghost use Rattle.market.specs.Curves.{PassedOn};

use super::amounts::Amounts;
use super::asking::{check_tenth, cost_of};
use super::process::MarketProcess;
use super::refusal::ProcessRefusal;
use super::ruc_record::{LimitedInterval, RucCosts, RucRecord};
use offers::OfferCurve;

// The process of a unit by the curve of the commitment decision and the current curve, which may differ in make.
// Clauses name the prices of both each time: a model that shows two lists loses that they are lawful, which the law of bounds
// needs.
#[derive(Drop)]
pub struct Ruc<C, N> {
    pub committed: C,
    pub current: N,
}

impl<C: OfferCurve, N: OfferCurve> Ruc<C, N> {
    // Fields first; then the commitment minimum, the maximum and the actual output have to lie on the curves.
    #[tactic(auto, unfolding(crate::specs::Reliability::ruc_refusal))]
    fn check(&self, step: &RucRecord) -> Result<LimitedInterval, ProcessRefusal>
        ensures { PassedOn result (λ limited. limited.fields) (ruc_refusal (C.OfferCurve.prices self.now.committed) (N.OfferCurve.prices self.now.current) step.now) step.now }
    {
        let interval = step.limited()?;
        check_tenth(&self.committed, interval.least())?;
        check_tenth(&self.current, interval.least())?;
        check_tenth(&self.current, interval.most())?;
        check_tenth(&self.current, interval.output())?;
        Ok(interval)
    }

    fn point(&self, interval: &LimitedInterval) -> u64
        ensures { result ≡ economic_point (N.OfferCurve.prices self.now.current) interval.now.fields }
    {
        interval.nearest(self.current.count(interval.price()))
    }

    // The economic operating point of a record: the tenths that run at its price, raised to the commitment minimum or lowered
    // to the maximum. Refused just as settling the record is.
    pub fn economic_point(&self, step: &RucRecord) -> Result<u64, ProcessRefusal>
        ensures { result ≡ unless (ruc_refusal (C.OfferCurve.prices self.now.committed) (N.OfferCurve.prices self.now.current) step.now) (economic_point (N.OfferCurve.prices self.now.current) step.now) }
    {
        let interval = self.check(step)?;
        Ok(self.point(&interval))
    }

    // What the tenths of a record that was checked cost.
    fn costs(&self, interval: &LimitedInterval) -> RucCosts
        requires { RucTaken (C.OfferCurve.prices self.now.committed) (N.OfferCurve.prices self.now.current) interval.now.fields }
        ensures energy { energy_of result.committed result.actual result.replaced ≡ energy_cost (C.OfferCurve.prices self.now.committed) (N.OfferCurve.prices self.now.current) interval.now.fields }
        ensures excess { excess_of result.actual result.economic ≡ excess_cost (N.OfferCurve.prices self.now.current) interval.now.fields }
    {
        RucCosts {
            committed: cost_of(&self.committed, interval.held()),
            replaced: cost_of(&self.current, interval.held()),
            actual: cost_of(&self.current, interval.output()),
            economic: cost_of(&self.current, self.point(interval)),
        }
    }
}

impl<C: OfferCurve, N: OfferCurve> MarketProcess for Ruc<C, N> {
    type Record = RucRecord;

    const NUMBER: u8 = 2;

    const LENGTH: u64 = 1;

    const TAKES_OVER: bool = false;

    const POT: u8 = 1;

    ghost NUMBER = { ruc_figures.number };

    ghost LENGTH = { ruc_figures.length };

    ghost TAKES_OVER = { ruc_figures.takes_over };

    ghost POT = { ruc_figures.pot };

    ghost meaning = { λ p x. ruc_meaning (C.OfferCurve.prices p.committed) (N.OfferCurve.prices p.current) x };

    ghost lawful = { Prim.search rules };

    ghost bounded = { λ p x. interval-lawful (C.OfferCurve.prices p.committed) (N.OfferCurve.prices p.current) x (C.OfferCurve.lawful p.committed) (N.OfferCurve.lawful p.current) };

    #[tactic(auto, using(crate::specs::Intervals::taken_interval, crate::specs::Intervals::interval_taken))]
    fn settle(&self, step: &RucRecord) -> Result<Amounts, ProcessRefusal>
        ensures value { result ≡ ruc_meaning (C.OfferCurve.prices self.now.committed) (N.OfferCurve.prices self.now.current) step.now }
        ensures taken { IsOk result ↔ RucTaken (C.OfferCurve.prices self.now.committed) (N.OfferCurve.prices self.now.current) step.now }
    {
        let interval = self.check(step)?;
        Ok(interval.amounts(self.costs(&interval)))
    }
}
