// A cap over a curve of blocks.

ghost use Rattle.std.specs.Prelude.{◌≡◌};
ghost use Rattle.offers.specs.Answers.{then};
ghost use Rattle.offers.specs.Blocks.{spread};
ghost use Rattle.offers.specs.Piles.{cap_asked, capped};
ghost use Rattle.offers.specs.PilesLemmas.{lawful-capped};
ghost use Rattle.offers.specs.Spreads.{lawful-spread};

use offers::{BlockCurve, Cap, CurveRefusal, OfferCurve};

// A curve of blocks that is capped, as one type with one `impl`: what an adder lies on where a cap is under it.
#[derive(Drop)]
pub struct CappedBlocks(Cap<BlockCurve>);

impl CappedBlocks {
    pub(crate) fn new(curve: BlockCurve, limit: i64) -> Result<CappedBlocks, CurveRefusal>
        ensures { then result (λ c. capped c.0.limit (spread c.0.lower.blocks.items)) ≡ cap_asked limit (spread curve.blocks.items) }
    {
        Ok(CappedBlocks(Cap::new(curve, limit)?))
    }
}

impl OfferCurve for CappedBlocks {
    ghost prices = { λ c. capped c.0.limit (spread c.0.lower.blocks.items) };

    ghost lawful = { λ c. lawful-capped c.0.limit (spread c.0.lower.blocks.items) c.0.within (lawful-spread c.0.lower.blocks.items c.0.lower.faultless) };

    fn top(&self) -> u64 {
        self.0.top()
    }

    fn price(&self, tenth: u64) -> Result<i64, CurveRefusal> {
        self.0.price(tenth)
    }

    fn cost(&self, tenths: u64) -> Result<i64, CurveRefusal> {
        self.0.cost(tenths)
    }

    fn count(&self, price: i64) -> u64 {
        self.0.count(price)
    }
}
