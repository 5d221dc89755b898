// What the tests share: lines, curves made of pairs, and answers compared with tables.
// Tests of processes have the like in their own crate: a library between the two would state contracts for a few lines, and may hold
// nothing that takes `Abort`.

use offers::{Block, BlockCurve, CurveRefusal, Layer, OfferCurve, Refusal};
use quotes::{LineFault, OfferFault};
use std::alloc::{AllocError, Global};
use std::fmt::Debug;
use std::process::Abort;
use std::test::Fail;

// The lines of a text.
pub(super) fn lines_of(heap: Global, text: &str) -> Result<Vec<String>, AllocError> {
    text.lines()
        .map(|line| String::from_str(heap, line))
        .try_collect(heap)
}

pub(super) fn line(number: u64, fault: LineFault) -> OfferFault {
    OfferFault::Line { number, fault }
}

// That each text is at fault as its row says.
pub(super) fn check_faults<
    E: From<OfferFault> + PartialEq + Debug + Drop,
    F: Fn(&str) -> Option<E>,
>(rt: &impl Abort, fault_of: F, table: &[(&str, OfferFault)])
    requires { F.IsAlwaysCallable fault_of }
{
    for (text, fault) in table {
        assert_eq!(rt; fault_of(text), Some(E::from(*fault)));
    }
}

// The curve of blocks given as width and price, or its refusal.
pub(super) fn curve_of(
    heap: Global,
    pairs: &[(u64, i64)],
) -> Result<Result<BlockCurve, CurveRefusal>, AllocError> {
    let blocks = pairs
        .iter()
        .map(|&(width, price)| Block { width, price })
        .collect(heap)?;
    Ok(BlockCurve::new(blocks))
}

// 100 tenths at 2,000 and 100 at 3,000.
pub(super) fn curve_b(heap: Global) -> Result<BlockCurve, Fail> {
    Ok(curve_of(heap, &[(100, 2_000), (100, 3_000)])??)
}

// That a make or a question is refused by the curve layer, with which number and place.
pub(super) fn check_refused<T: Drop>(
    rt: &impl Abort,
    told: Result<T, CurveRefusal>,
    number: u8,
    place: u64,
) -> Result<(), Fail> {
    let Err(refusal) = told else {
        return Err(Fail::new("taken"));
    };
    assert_eq!(rt; refusal.number(), number);
    assert_eq!(rt; refusal.layer(), Layer::Curve);
    assert_eq!(rt; refusal.place(), place);
    Ok(())
}

// A function for each question, so that a table need not spell the question.
pub(super) fn check_prices<C: OfferCurve>(
    rt: &impl Abort,
    curve: &C,
    table: &[(u64, i64)],
) -> Result<(), Fail> {
    for (tenth, price) in table {
        assert_eq!(rt; curve.price(*tenth)?, *price);
    }
    Ok(())
}

pub(super) fn check_costs<C: OfferCurve>(
    rt: &impl Abort,
    curve: &C,
    table: &[(u64, i64)],
) -> Result<(), Fail> {
    for (tenths, cost) in table {
        assert_eq!(rt; curve.cost(*tenths)?, *cost);
    }
    Ok(())
}

pub(super) fn check_counts<C: OfferCurve>(rt: &impl Abort, curve: &C, table: &[(i64, u64)]) {
    for (price, count) in table {
        assert_eq!(rt; curve.count(*price), *count);
    }
}

// That prices and costs beyond the top are refused, and the price of tenth 0.
pub(super) fn check_beyond<C: OfferCurve>(
    rt: &impl Abort,
    curve: &C,
    top: u64,
) -> Result<(), Fail> {
    assert_eq!(rt; curve.top(), top);
    check_refused(rt, curve.price(0), 13, 0)?;
    for tenth in [top.saturating_add(1), top.saturating_add(2), u64::MAX] {
        check_refused(rt, curve.price(tenth), 13, tenth)?;
        check_refused(rt, curve.cost(tenth), 13, tenth)?;
    }
    Ok(())
}
