// The prices of an offer: what its curve answers at the end of each block and at each market price.

ghost use Rattle.std.specs.Prelude.{◌≡◌, map, IfOk, Ok, vec_items};
ghost use Rattle.offers.specs.Blocks.{blocks_asked};
ghost use Rattle.quotes.specs.Answers.{Answers, as_refused};
ghost use Rattle.quotes.specs.Offers.{asked};
ghost use Rattle.quotes.specs.Quotes.{point_at, points_at, dispatch_at, quote_at, quoted, ends_from, settled};

use super::fault::OfferFault;
use super::offer::Offer;
use super::piled::PiledCurve;
use offers::{BlockCurve, OfferCurve};
use std::alloc::{AllocError, Global};

// The price of a tenth, and the cost of all tenths up to it.
#[derive(Clone, Copy)]
pub struct Point {
    pub tenth: u64,
    pub price: i64,
    pub cost: i64,
}

// How many tenths run at a market price.
#[derive(Clone, Copy)]
pub struct Dispatch {
    pub market: i64,
    pub tenths: u64,
}

#[derive(Drop)]
pub struct Quote {
    pub top: u64,
    pub points: Vec<Point>,
    pub dispatches: Vec<Dispatch>,
}

fn point_at<C: OfferCurve>(curve: &C, tenth: u64) -> Result<Point, OfferFault>
    ensures { Answers (λ x. x) result (as_refused (point_at (C.prices curve.now) tenth)) }
{
    let price = curve.price(tenth)?;
    let cost = curve.cost(tenth)?;
    Ok(Point { tenth, price, cost })
}

fn points_at<C: OfferCurve>(
    heap: Global,
    curve: &C,
    tenths: &[u64],
) -> Result<Vec<Point>, OfferFault>
    ensures { Answers vec_items result (as_refused (points_at (C.prices curve.now) tenths.now)) }
{
    let mut points = Vec::new(heap);
    for tenth in tenths.iter().copied() {
        points.push(point_at(curve, tenth)?)?;
    }
    Ok(points)
}

fn dispatch_at<C: OfferCurve>(curve: &C, market: i64) -> Dispatch
    ensures { result ≡ dispatch_at (C.prices curve.now) market }
{
    Dispatch {
        market,
        tenths: curve.count(market),
    }
}

fn dispatches_at<C: OfferCurve>(
    heap: Global,
    curve: &C,
    markets: &[i64],
) -> Result<Vec<Dispatch>, AllocError>
    ensures { IfOk result (λ v. v.items ≡ map (dispatch_at (C.prices curve.now)) markets.now) }
{
    markets
        .iter()
        .map(|market| dispatch_at(curve, *market))
        .collect(heap)
}

// What a curve answers at these tenths and market prices.
pub(crate) fn quote_at<C: OfferCurve>(
    heap: Global,
    curve: &C,
    tenths: &[u64],
    markets: &[i64],
) -> Result<Quote, OfferFault>
    ensures { Answers quoted result (as_refused (quote_at tenths.now markets.now (C.prices curve.now))) }
{
    let points = points_at(heap, curve, tenths)?;
    let dispatches = dispatches_at(heap, curve, markets)?;
    Ok(Quote {
        top: curve.top(),
        points,
        dispatches,
    })
}

// The last tenth of each block.
#[tactic(auto, using(crate::proofs::Ends::narrow))]
fn block_ends(heap: Global, curve: &BlockCurve) -> Result<Vec<u64>, OfferFault>
    ensures { Answers vec_items result (Ok (ends_from 0 curve.now.blocks.items)) }
{
    let mut ends = Vec::new(heap);
    let mut end = 0;
    for block in curve.blocks().iter().copied() {
        end += block.width;
        ends.push(end)?;
    }
    Ok(ends)
}

// The curve of an offer's blocks, with nothing on them.
pub fn block_curve(heap: Global, offer: &Offer) -> Result<BlockCurve, OfferFault>
    ensures { Answers (λ c. c.blocks.items) result (as_refused (blocks_asked (asked offer.now).blocks)) }
{
    let blocks = Vec::from_slice(heap, offer.blocks.as_slice())?;
    Ok(BlockCurve::new(blocks)?)
}

// The prices of an offer at the end of each block and at its market prices, or why it is refused.
pub fn price_offer(heap: Global, offer: &Offer) -> Result<Quote, OfferFault>
    ensures { Answers quoted result (as_refused (settled (asked offer.now))) }
{
    let curve = block_curve(heap, offer)?;
    let ends = block_ends(heap, &curve)?;
    let piled = PiledCurve::new(curve, offer.pile)?;
    quote_at(heap, &piled, ends.as_slice(), offer.markets.as_slice())
}
