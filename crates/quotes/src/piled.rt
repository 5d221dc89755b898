// A curve under a pile that is known once its offer is read.

ghost use Rattle.std.specs.Prelude.{◌≡◌};
ghost use Rattle.offers.specs.Answers.{then};
ghost use Rattle.offers.specs.Blocks.{spread};
ghost use Rattle.quotes.specs.Piled.{lawful-piled, piled_prices};
ghost use Rattle.quotes.specs.Quotes.{piled};

use super::capped_blocks::CappedBlocks;
use super::offer::Pile;
use offers::{Adder, BlockCurve, Cap, CurveRefusal, OfferCurve};

// A curve of blocks with what lies on it. An enum, since a function that makes a `dyn` value may not hand it out.
#[derive(Drop)]
pub enum PiledCurve {
    Bare(BlockCurve),
    Cap(Cap<BlockCurve>),
    Adder(Adder<BlockCurve>),
    CapOverAdder(Cap<Adder<BlockCurve>>),
    AdderOverCap(Adder<CappedBlocks>),
}

impl PiledCurve {
    // Lays a pile on a curve of blocks, or answers the refusal of the cap or the adder that cannot be laid.
    pub fn new(curve: BlockCurve, pile: Pile) -> Result<PiledCurve, CurveRefusal>
        ensures { then result piled_prices ≡ piled pile (spread curve.blocks.items) }
    {
        match pile {
            Pile::Bare => Ok(PiledCurve::Bare(curve)),
            Pile::Cap { limit } => Ok(PiledCurve::Cap(Cap::new(curve, limit)?)),
            Pile::Adder { added } => Ok(PiledCurve::Adder(Adder::new(curve, added)?)),
            Pile::CapOverAdder { limit, added } => {
                let raised = Adder::new(curve, added)?;
                Ok(PiledCurve::CapOverAdder(Cap::new(raised, limit)?))
            }
            Pile::AdderOverCap { added, limit } => {
                let capped = CappedBlocks::new(curve, limit)?;
                Ok(PiledCurve::AdderOverCap(Adder::new(capped, added)?))
            }
        }
    }
}

impl OfferCurve for PiledCurve {
    ghost prices = { piled_prices };

    ghost lawful = { lawful-piled };

    fn top(&self) -> u64 {
        match self {
            PiledCurve::Bare(curve) => curve.top(),
            PiledCurve::Cap(curve) => curve.top(),
            PiledCurve::Adder(curve) => curve.top(),
            PiledCurve::CapOverAdder(curve) => curve.top(),
            PiledCurve::AdderOverCap(curve) => curve.top(),
        }
    }

    fn price(&self, tenth: u64) -> Result<i64, CurveRefusal> {
        match self {
            PiledCurve::Bare(curve) => curve.price(tenth),
            PiledCurve::Cap(curve) => curve.price(tenth),
            PiledCurve::Adder(curve) => curve.price(tenth),
            PiledCurve::CapOverAdder(curve) => curve.price(tenth),
            PiledCurve::AdderOverCap(curve) => curve.price(tenth),
        }
    }

    fn cost(&self, tenths: u64) -> Result<i64, CurveRefusal> {
        match self {
            PiledCurve::Bare(curve) => curve.cost(tenths),
            PiledCurve::Cap(curve) => curve.cost(tenths),
            PiledCurve::Adder(curve) => curve.cost(tenths),
            PiledCurve::CapOverAdder(curve) => curve.cost(tenths),
            PiledCurve::AdderOverCap(curve) => curve.cost(tenths),
        }
    }

    fn count(&self, price: i64) -> u64 {
        match self {
            PiledCurve::Bare(curve) => curve.count(price),
            PiledCurve::Cap(curve) => curve.count(price),
            PiledCurve::Adder(curve) => curve.count(price),
            PiledCurve::CapOverAdder(curve) => curve.count(price),
            PiledCurve::AdderOverCap(curve) => curve.count(price),
        }
    }
}
