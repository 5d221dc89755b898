// Curves laid by a number, by what caps and adders are asked for.

ghost use Rattle.std.specs.Prelude.{◌≡◌};
ghost use Rattle.offers.specs.Answers.{bind};
ghost use Rattle.offers.specs.Piles.{adder_asked, cap_asked};
ghost use Rattle.offers.specs.Prices.{price_of};

use offers::{Adder, Cap, CurveRefusal, OfferCurve, Over, price_over};

// The price of a tenth under an adder over a cap. What is asked of the two is named here by the definitions of a cap and an
// adder, and not by what their own `asked` says.
pub fn price_laid_twice<C: OfferCurve + Drop>(
    lower: C,
    limit: i64,
    added: i64,
    tenth: u64,
) -> Result<i64, CurveRefusal>
    ensures { result ≡ bind (bind (cap_asked limit (C.prices lower)) (adder_asked added)) (λ ps. price_of ps tenth) }
{
    let capped = Cap::over(lower, limit)?;
    price_over::<Cap<C>, Adder<Cap<C>>>(capped, added, tenth)
}
