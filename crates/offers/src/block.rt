// One block of an offer.

ghost use Rattle.std.specs.Prelude.{◌≡◌, ◌≤◌, pos, ◌*ℤ◌};
ghost use Rattle.offers.specs.Prices.{highest_top};
ghost use Rattle.offers.specs.Bounds.{Difference};

// So many tenths at one price, in cents per MWh.
#[derive(Clone, Copy, Debug, PartialEq, Eq)]
pub struct Block {
    pub width: u64,
    pub price: i64,
}

// The cost of all tenths of a block. Its price may be as high as a difference of two prices.
pub(crate) fn cost_of_all(block: Block) -> i64
    requires few { block.width ≤ highest_top }
    requires modest { Difference block.price }
    ensures { result ≡ pos block.width *ℤ block.price }
{
    block.width as i64 * block.price
}
