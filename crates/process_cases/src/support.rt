// What the tests of processes share: curves, records with one field set, and refusals compared.
// Tests of curves have the like in their own crate: a library between the two would state contracts for a few lines, and may hold
// nothing that takes `Abort`.

use market::{Amounts, DayAheadRecord, ProcessRefusal, RucRecord};
use offers::{Adder, Block, BlockCurve, Layer, Refusal};
use std::alloc::Global;
use std::process::Abort;
use std::test::Fail;

// The curve of blocks given as width and price.
pub(super) fn curve_of(heap: Global, pairs: &[(u64, i64)]) -> Result<BlockCurve, Fail> {
    let blocks = pairs
        .iter()
        .map(|&(width, price)| Block { width, price })
        .collect(heap)?;
    Ok(BlockCurve::new(blocks)?)
}

// 100 tenths at 2,000 and 100 at 3,000.
pub(super) fn curve_b(heap: Global) -> Result<BlockCurve, Fail> {
    curve_of(heap, &[(100, 2_000), (100, 3_000)])
}

// 300 more for every tenth of it: 2,300 and 3,300.
pub(super) fn curve_c(heap: Global) -> Result<Adder<BlockCurve>, Fail> {
    Ok(Adder::new(curve_b(heap)?, 300)?)
}

// As many tenths as a curve may have.
pub(super) fn widest(heap: Global) -> Result<BlockCurve, Fail> {
    curve_of(heap, &[(1, -100_000), (9_999, 100_000)])
}

pub(super) const IDLE_HOUR: DayAheadRecord = DayAheadRecord {
    cleared: 0,
    price: 0,
    no_load: 0,
    reserve_cost: 0,
    reserve_revenue: 0,
};

pub(super) const IDLE_INTERVAL: RucRecord = RucRecord {
    commitment_minimum: 0,
    minimum_now: 0,
    maximum: 10_000,
    setpoint: 0,
    actual: 0,
    tolerance: 0,
    price: 0,
    no_load: 0,
    non_dispatchable: 0,
    other_revenue: 0,
    reserve_cost: 0,
};

// A record with the field of a number set; fields count from 1, as in the place of a refusal. The numbers stand here once
// more, apart from the program's own, which is on trial.
pub(super) fn hour_with(mut hour: DayAheadRecord, field: u64, value: i64) -> DayAheadRecord {
    match field {
        1 => hour.cleared = value,
        2 => hour.price = value,
        3 => hour.no_load = value,
        4 => hour.reserve_cost = value,
        _ => hour.reserve_revenue = value,
    }
    hour
}

pub(super) fn interval_with(mut interval: RucRecord, field: u64, value: i64) -> RucRecord {
    match field {
        1 => interval.commitment_minimum = value,
        2 => interval.minimum_now = value,
        3 => interval.maximum = value,
        4 => interval.setpoint = value,
        5 => interval.actual = value,
        6 => interval.tolerance = value,
        7 => interval.price = value,
        8 => interval.no_load = value,
        9 => interval.non_dispatchable = value,
        10 => interval.other_revenue = value,
        _ => interval.reserve_cost = value,
    }
    interval
}

fn check_refused(
    rt: &impl Abort,
    answer: Result<Amounts, ProcessRefusal>,
    number: u8,
    layer: Layer,
    place: u64,
) {
    let told = answer.err().map(|refusal| (refusal.number(), refusal.layer(), refusal.place()));
    assert_eq!(rt; told, Some((number, layer, place)));
}

pub(super) fn check_field(rt: &impl Abort, answer: Result<Amounts, ProcessRefusal>, field: u64) {
    check_refused(rt, answer, 14, Layer::Process, field);
}

pub(super) fn check_tenth(rt: &impl Abort, answer: Result<Amounts, ProcessRefusal>, tenth: u64) {
    check_refused(rt, answer, 13, Layer::Curve, tenth);
}

// Cost, revenue and disallowed cost of a taken record.
pub(super) fn check_amounts(
    rt: &impl Abort,
    answer: Result<Amounts, ProcessRefusal>,
    (cost, revenue, disallowed): (i64, i64, i64),
) {
    let amounts = Amounts {
        cost,
        revenue,
        disallowed,
    };
    assert_eq!(rt; answer, Ok(amounts));
}
