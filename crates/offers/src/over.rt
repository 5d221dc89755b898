// The interface of a curve over a lower one.

ghost use Rattle.std.specs.Prelude.{◌≡◌, List, ℤ, Result};
ghost use Rattle.offers.specs.declared.refusal.CurveRefusal.{CurveRefusal};
ghost use Rattle.offers.specs.Answers.{then};

use super::curve::OfferCurve;
use super::refusal::CurveRefusal;

// A curve laid over a lower one by a number: the limit of a cap, what an adder adds.
pub trait Over<C: OfferCurve>: OfferCurve {
    // The prices that are asked for by the number over those below, or the refusal.
    ghost asked: { ℤ → List ℤ → Result (List ℤ) CurveRefusal };

    // The laid curve answers by the prices that are asked for, or it is refused.
    fn over(lower: C, number: i64) -> Result<Self, CurveRefusal>
        ensures { then result Self.prices ≡ asked number (C.prices lower) };
}
