// An adder over a lower curve.

ghost use Rattle.std.specs.Prelude.{◌≡◌, ◌-◌, ◌≤◌, ◌+ℤ◌, ◌-ℤ◌};
ghost use Rattle.offers.specs.Prices.{lowest_price, highest_price, in_range, cost_of};
ghost use Rattle.offers.specs.Answers.{then};
ghost use Rattle.offers.specs.Bounds.{Amount, Difference};
ghost use Rattle.offers.specs.Piles.{raised, adder_asked, all_keep};
ghost use Rattle.offers.specs.PilesLemmas.{lawful-raised};

use super::block::{Block, cost_of_all};
use super::curve::{HIGHEST_PRICE, LOWEST_PRICE, OfferCurve, in_range};
use super::over::Over;
use super::refusal::CurveRefusal;

// A curve with a number added to every price; a sum out of range stands at the nearer limit. That none is made which has such
// a sum is said of `new`: a ghost field over the prices below would put a bound on the type, which a struct with a field
// `Adder<Cap<C>>` would have to repeat.
#[derive(Drop)]
pub struct Adder<C> {
    lower: C,
    added: i64,
    // Any other number takes every price out of range.
    ghost modest: { Difference added },
}

// Whether a price stays in range when a number is added to it.
fn keeps(price: i64, added: i64) -> bool
    ensures { result ≡ in_range (price +ℤ added) }
{
    in_range(price.saturating_add(added))
}

// Whether each of the prices stays in range when a number is added to it.
fn keep_all(prices: &[i64], added: i64) -> bool
    ensures { result ≡ all_keep added prices.now }
{
    prices.iter().all(|price| keeps(*price, added))
}

impl<C: OfferCurve + Drop> Adder<C> {
    // An adder over a curve, refused where it would take a price out of range.
    pub fn new(lower: C, added: i64) -> Result<Adder<C>, CurveRefusal>
        ensures { then result (λ c. raised c.added (C.prices c.lower)) ≡ adder_asked added (C.prices lower) }
    {
        let first = lower.price(1)?;
        let last = lower.price(lower.top())?;
        // Prices never fall, so what holds at the first and at the last holds between them.
        if keep_all(&[first, last], added) {
            Ok(Adder { lower, added })
        } else {
            Err(CurveRefusal::AdderOutOfRange)
        }
    }
}

// The first tenths under an adder, by where their sums stand: at the lowest price, in range, at the highest price.
#[derive(Clone, Copy)]
struct Split {
    lifted: Block,
    raised: Block,
    cut: Block,
}

fn split_of(tenths: u64, lifted: u64, kept: u64, added: i64) -> Split
    requires ordered { lifted ≤ kept }
    requires within { kept ≤ tenths }
    ensures { result ≡ record { lifted = record { width = lifted; price = lowest_price }; raised = record { width = kept - lifted; price = added }; cut = record { width = tenths - kept; price = highest_price } } }
{
    Split {
        lifted: Block {
            width: lifted,
            price: LOWEST_PRICE,
        },
        raised: Block {
            width: kept - lifted,
            price: added,
        },
        cut: Block {
            width: tenths - kept,
            price: HIGHEST_PRICE,
        },
    }
}

// A cost under an adder by its parts, in ticks: the tenths up to the last in range at the lower curve's prices, of these
// the tenths before the first in range, what is added to the tenths in range, and the tenths at either limit.
#[derive(Clone, Copy)]
struct CostParts {
    kept: i64,
    lifted: i64,
    added: i64,
    floor: i64,
    roof: i64,
}

fn sum_of(parts: CostParts) -> i64
    requires { Amount parts.kept × Amount parts.lifted × Amount parts.added × Amount parts.floor × Amount parts.roof }
    ensures { result ≡ parts.floor +ℤ (parts.kept -ℤ parts.lifted) +ℤ parts.added +ℤ parts.roof }
{
    let between = parts.kept - parts.lifted;
    let lower = parts.floor + between;
    let upper = parts.added + parts.roof;
    lower + upper
}

// The cost of the first tenths, of which most often there are none.
fn cost_if_any<C: OfferCurve>(curve: &C, tenths: u64) -> Result<i64, CurveRefusal>
    ensures { result ≡ cost_of (C.prices curve.now) tenths }
{
    if tenths == 0 {
        return Ok(0);
    }
    curve.cost(tenths)
}

impl<C: OfferCurve> OfferCurve for Adder<C> {
    ghost prices = { λ c. raised c.added (C.OfferCurve.prices c.lower) };

    ghost lawful = { λ c. lawful-raised c.added (C.OfferCurve.prices c.lower) (C.OfferCurve.lawful c.lower) };

    fn top(&self) -> u64 {
        self.lower.top()
    }

    fn price(&self, tenth: u64) -> Result<i64, CurveRefusal> {
        let price = self.lower.price(tenth)?;
        Ok((price + self.added).clamp(LOWEST_PRICE, HIGHEST_PRICE))
    }

    fn cost(&self, tenths: u64) -> Result<i64, CurveRefusal> {
        if tenths > self.lower.top() {
            return Err(CurveRefusal::NoSuchTenth(tenths));
        }
        let lifted = self.lower.count(LOWEST_PRICE - self.added).min(tenths);
        let kept = self.lower.count(HIGHEST_PRICE - self.added).min(tenths);
        let parts = split_of(tenths, lifted, kept, self.added);
        Ok(sum_of(CostParts {
            kept: self.lower.cost(kept)?,
            lifted: cost_if_any(&self.lower, lifted)?,
            added: cost_of_all(parts.raised),
            floor: cost_of_all(parts.lifted),
            roof: cost_of_all(parts.cut),
        }))
    }

    fn count(&self, price: i64) -> u64 {
        if price < LOWEST_PRICE {
            0
        } else if price < HIGHEST_PRICE {
            self.lower.count(price - self.added)
        } else {
            self.lower.top()
        }
    }
}

impl<C: OfferCurve + Drop> Over<C> for Adder<C> {
    ghost asked = { adder_asked };

    fn over(lower: C, added: i64) -> Result<Adder<C>, CurveRefusal> {
        Adder::new(lower, added)
    }
}
