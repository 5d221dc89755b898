// A cap over a lower curve.

ghost use Rattle.std.specs.Prelude.{◌≡◌};
ghost use Rattle.std.specs.Int.{int_min};
ghost use Rattle.offers.specs.Prices.{InRange};
ghost use Rattle.offers.specs.Answers.{then};
ghost use Rattle.offers.specs.Piles.{capped, cap_asked};
ghost use Rattle.offers.specs.PilesLemmas.{lawful-capped};

use super::block::{Block, cost_of_all};
use super::curve::{OfferCurve, in_range};
use super::over::Over;
use super::refusal::CurveRefusal;

// A curve of which no price is above a limit.
#[derive(Drop)]
pub struct Cap<C> {
    lower: C,
    limit: i64,
    ghost within: { InRange limit },
}

fn at_most(price: i64, limit: i64) -> i64
    ensures { result ≡ int_min limit price }
{
    price.min(limit)
}

impl<C: OfferCurve + Drop> Cap<C> {
    // A cap over a curve, refused where its limit is no price.
    pub fn new(lower: C, limit: i64) -> Result<Cap<C>, CurveRefusal>
        ensures { then result (λ c. capped c.limit (C.prices c.lower)) ≡ cap_asked limit (C.prices lower) }
    {
        if !in_range(limit) {
            return Err(CurveRefusal::CapOutOfRange);
        }
        Ok(Cap { lower, limit })
    }
}

impl<C: OfferCurve> OfferCurve for Cap<C> {
    ghost prices = { λ c. capped c.limit (C.OfferCurve.prices c.lower) };

    ghost lawful = { λ c. lawful-capped c.limit (C.OfferCurve.prices c.lower) c.within (C.OfferCurve.lawful c.lower) };

    fn top(&self) -> u64 {
        self.lower.top()
    }

    fn price(&self, tenth: u64) -> Result<i64, CurveRefusal> {
        let price = self.lower.price(tenth)?;
        Ok(at_most(price, self.limit))
    }

    fn cost(&self, tenths: u64) -> Result<i64, CurveRefusal> {
        if tenths > self.lower.top() {
            return Err(CurveRefusal::NoSuchTenth(tenths));
        }
        let under = self.lower.count(self.limit).min(tenths);
        let below = self.lower.cost(under)?;
        let level = cost_of_all(Block {
            width: tenths - under,
            price: self.limit,
        });
        Ok(below + level)
    }

    fn count(&self, price: i64) -> u64 {
        if price < self.limit {
            self.lower.count(price)
        } else {
            self.lower.top()
        }
    }
}

impl<C: OfferCurve + Drop> Over<C> for Cap<C> {
    ghost asked = { cap_asked };

    fn over(lower: C, limit: i64) -> Result<Cap<C>, CurveRefusal> {
        Cap::new(lower, limit)
    }
}
