// A curve of blocks.

ghost use Rattle.std.specs.Prelude.{◌≡◌, false, is_some};
ghost use Rattle.offers.specs.Prices.{top_of};
ghost use Rattle.offers.specs.Blocks.{spread, fault};

use super::block::Block;

// An offer of 1 to 10 blocks, one after another, with the sum of their widths.
#[derive(Drop)]
pub struct BlockCurve {
    pub(crate) blocks: Vec<Block>,
    pub(crate) top: u64,
    ghost summed: { top ≡ top_of (spread blocks.items) },
    ghost faultless: { is_some (fault blocks.items) ≡ false },
}
