// The interface of an offer curve.

ghost use Rattle.std.specs.Prelude.{◌≡◌, List, ℤ};
ghost use Rattle.offers.specs.Prices.{Lawful, in_range, top_of, price_of, cost_of, count_of};

use super::refusal::CurveRefusal;

// The highest top that a curve may have, in tenths of a megawatt.
pub const HIGHEST_TOP: u64 = 10_000;

// The limits of a price, in cents per MWh.
pub const LOWEST_PRICE: i64 = -100_000;

pub const HIGHEST_PRICE: i64 = 100_000;

// Whether a number may be a price.
pub(crate) fn in_range(price: i64) -> bool
    ensures { result ≡ in_range price }
{
    (LOWEST_PRICE..=HIGHEST_PRICE).contains(&price)
}

// A curve means a list of prices, one for each tenth of a megawatt from 1 to its top. Each question is answered by that
// list, and changes nothing.
pub trait OfferCurve {
    ghost prices: { Self → List ℤ };

    // How many tenths the curve offers.
    fn top(&self) -> u64
        ensures { result ≡ top_of (prices self.now) };

    // The price of one tenth, counted from 1.
    fn price(&self, tenth: u64) -> Result<i64, CurveRefusal>
        ensures { result ≡ price_of (prices self.now) tenth };

    // The cost of the first tenths: the sum of their prices.
    fn cost(&self, tenths: u64) -> Result<i64, CurveRefusal>
        ensures { result ≡ cost_of (prices self.now) tenths };

    // How many tenths are priced at this price or less.
    fn count(&self, price: i64) -> u64
        ensures { result ≡ count_of (prices self.now) price };

    ghost lawful: { (c : Self) → Lawful (prices c) };
}
