// What a curve of blocks answers: each question takes one step a block.

ghost use Rattle.std.specs.Prelude.{◌≡◌, ◌≤◌, ◌<◌, ◌^◌, min, length, IsOk, ◌↔◌, nat_le, sum_by};
ghost use Rattle.std.specs.List.{AllByRecursion};
ghost use Rattle.offers.specs.Prices.{highest_top, top_of, price_of, cost_of};
ghost use Rattle.offers.specs.Blocks.{spread, fault, block_fault, blocks_asked, tenths_up_to, Offered};
ghost use Rattle.offers.specs.Answers.{then, unless};
ghost use Rattle.offers.specs.Bounds.{Kept};
ghost use Rattle.offers.specs.Spreads.{lawful-spread};

use super::block::{Block, cost_of_all};
use super::block_curve::BlockCurve;
use super::curve::{HIGHEST_TOP, LOWEST_PRICE, OfferCurve, in_range};
use super::refusal::CurveRefusal;

const MOST_BLOCKS: usize = 10;

// What is wrong with one block, where so many tenths lie before it and its price may not be below the floor.
fn block_fault(number: u64, before: u64, floor: i64, block: Block) -> Option<CurveRefusal>
    requires { before ≤ highest_top }
    ensures { result ≡ block_fault number before floor block }
{
    if block.width == 0 {
        return Some(CurveRefusal::EmptyBlock(number));
    }
    if block.width > HIGHEST_TOP - before {
        return Some(CurveRefusal::TooWide(number));
    }
    if !in_range(block.price) {
        return Some(CurveRefusal::PriceOutOfRange(number));
    }
    if block.price < floor {
        return Some(CurveRefusal::PriceFalls(number));
    }
    None
}

// The top of a list of blocks, or their first fault.
fn checked_top(blocks: &[Block]) -> Result<u64, CurveRefusal>
    ensures { result ≡ unless (fault blocks.now) (top_of (spread blocks.now)) }
{
    if blocks.is_empty() || blocks.len() > MOST_BLOCKS {
        return Err(CurveRefusal::BlockCount);
    }
    let mut top = 0;
    let mut floor = LOWEST_PRICE;
    for (number, block) in (1..).zip(blocks) {
        if let Some(fault) = block_fault(number, top, floor, *block) {
            return Err(fault);
        }
        top += block.width;
        floor = block.price;
    }
    Ok(top)
}

// Whether a tenth, counted from the first of a block, lies in the block.
fn reaches(block: Block, tenth: u64) -> bool
    ensures { result ≡ nat_le tenth block.width }
{
    tenth <= block.width
}

#[tactic(auto, using(crate::specs::Spreads::found_all, crate::specs::Spreads::found_none, crate::specs::Spreads::found_here, crate::specs::Spreads::found_next))]
fn price_of(blocks: &[Block], tenth: u64) -> Result<i64, CurveRefusal>
    ensures { result ≡ price_of (spread blocks.now) tenth }
{
    if tenth == 0 {
        return Err(CurveRefusal::NoSuchTenth(0));
    }
    let mut left = tenth;
    for block in blocks.iter().copied() {
        if reaches(block, left) {
            return Ok(block.price);
        }
        left -= block.width;
    }
    Err(CurveRefusal::NoSuchTenth(tenth))
}

// The part of a block that the first tenths take, where so many of them are left.
fn taken_of(block: Block, left: u64) -> Block
    ensures { result ≡ record { width = min left block.width; price = block.price } }
{
    Block {
        width: left.min(block.width),
        price: block.price,
    }
}

fn cost_of(blocks: &[Block], tenths: u64) -> Result<i64, CurveRefusal>
    requires few { length blocks.now ≤ 10 }
    requires kept { AllByRecursion Kept blocks.now }
    ensures { result ≡ cost_of (spread blocks.now) tenths }
{
    let mut left = tenths;
    let mut cost = 0;
    for block in blocks {
        let taken = taken_of(*block, left);
        cost += cost_of_all(taken);
        left -= taken.width;
    }
    if left > 0 {
        return Err(CurveRefusal::NoSuchTenth(tenths));
    }
    Ok(cost)
}

// How many tenths of a block are priced at this price or less.
fn counted(block: Block, price: i64) -> u64
    ensures { result ≡ tenths_up_to price block }
{
    if block.price <= price { block.width } else { 0 }
}

fn count_of(blocks: &[Block], price: i64) -> u64
    requires { sum_by (tenths_up_to price) blocks.now < 2 ^ 64 }
    ensures { result ≡ sum_by (tenths_up_to price) blocks.now }
{
    blocks.iter().map(|block| counted(*block, price)).sum()
}

impl BlockCurve {
    // A curve of these blocks, or their first fault: their number, then block by block an empty one, widths past the
    // highest top, a price out of range, and a price below the block before.
    pub fn new(blocks: Vec<Block>) -> Result<BlockCurve, CurveRefusal>
        ensures made { then result (λ c. c.blocks.items) ≡ blocks_asked blocks.items }
        ensures taken { IsOk result ↔ Offered blocks.items }
    {
        let top = checked_top(blocks.as_slice())?;
        Ok(BlockCurve { blocks, top })
    }

    // The blocks that the curve was made of.
    pub fn blocks(&self) -> &[Block]
        ensures { result.now ≡ self.now.blocks.items }
    {
        &self.blocks
    }
}

impl OfferCurve for BlockCurve {
    ghost prices = { λ c. spread c.blocks.items };

    ghost lawful = { λ c. lawful-spread c.blocks.items c.faultless };

    fn top(&self) -> u64 {
        self.top
    }

    fn price(&self, tenth: u64) -> Result<i64, CurveRefusal> {
        price_of(self.blocks.as_slice(), tenth)
    }

    fn cost(&self, tenths: u64) -> Result<i64, CurveRefusal> {
        cost_of(self.blocks.as_slice(), tenths)
    }

    fn count(&self, price: i64) -> u64 {
        count_of(self.blocks.as_slice(), price)
    }
}
