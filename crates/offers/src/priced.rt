// A curve made and asked at once: the list that a make promises is the list that the made curve answers by.

ghost use Rattle.std.specs.Prelude.{◌≡◌};
ghost use Rattle.offers.specs.Prices.{price_of};
ghost use Rattle.offers.specs.Answers.{bind};
ghost use Rattle.offers.specs.Blocks.{spread, blocks_asked};

use super::block::Block;
use super::block_curve::BlockCurve;
use super::curve::OfferCurve;
use super::over::Over;
use super::refusal::CurveRefusal;

// The price of a tenth of a curve of these blocks.
pub fn price_of_blocks(blocks: Vec<Block>, tenth: u64) -> Result<i64, CurveRefusal>
    ensures { result ≡ bind (blocks_asked blocks.items) (λ bs. price_of (spread bs) tenth) }
{
    BlockCurve::new(blocks)?.price(tenth)
}

// The price of a tenth of a curve laid over a lower one by a number.
pub fn price_over<C: OfferCurve, L: Over<C> + Drop>(
    lower: C,
    number: i64,
    tenth: u64,
) -> Result<i64, CurveRefusal>
    ensures { result ≡ bind (L.asked number (C.prices lower)) (λ ps. price_of ps tenth) }
{
    L::over(lower, number)?.price(tenth)
}
