// A pile held in a field.

ghost use Rattle.std.specs.Prelude.{◌≡◌};
ghost use Rattle.offers.specs.Piles.{capped, raised};
ghost use Rattle.offers.specs.Prices.{count_of};

use offers::{Adder, Cap, OfferCurve};

// An adder over a cap over a curve of any make. Whoever holds a pile bounds his own curve, and no layer of the pile.
#[derive(Drop)]
pub struct Held<C: OfferCurve> {
    pub pile: Adder<Cap<C>>,
}

// How many tenths of the pile run at a price.
pub fn count_held<C: OfferCurve>(held: &Held<C>, price: i64) -> u64
    ensures { result ≡ count_of (raised held.now.pile.added (capped held.now.pile.lower.limit (C.prices held.now.pile.lower.lower))) price }
{
    held.pile.count(price)
}
