// What a process asks of a curve.

ghost use Rattle.std.specs.Prelude.{◌≡◌, ◌≤◌};
ghost use Rattle.offers.specs.Prices.{top_of};
ghost use Rattle.market.specs.Curves.{checked, cost_up_to, tenth_refusal};
ghost use Rattle.market.specs.Laws.{Within};

use super::refusal::ProcessRefusal;
use offers::OfferCurve;

// A tenth beyond the top of the curve is refused.
pub(crate) fn check_tenth<C: OfferCurve>(curve: &C, tenth: u64) -> Result<(), ProcessRefusal>
    ensures { result ≡ checked (tenth_refusal (C.prices curve.now) tenth) }
{
    if tenth > curve.top() {
        return Err(ProcessRefusal::NoSuchTenth(tenth));
    }
    Ok(())
}

// The cost of the first tenths of a curve that has them.
pub(crate) fn cost_of<C: OfferCurve>(curve: &C, tenths: u64) -> i64
    requires { tenths ≤ top_of (C.prices curve.now) }
    ensures value { result ≡ cost_up_to (C.prices curve.now) tenths }
    ensures modest { Within 1000000000 result }
{
    curve.cost(tenths).unwrap()
}
