// Curves of blocks, executed: which are refused and where, and what they answer.

use super::support::*;
use offers::{CurveRefusal, Reported};
use std::test::Fail;

#[test]
fn numbers_of_blocks(rt: HostRuntime) -> Result<(), Fail> {
    let heap = rt.alloc();
    check_refused(&rt, curve_of(heap, &[])?, 10, 0)?;
    check_refused(&rt, curve_of(heap, &[(1, 5); 11])?, 10, 0)?;
    check_refused(&rt, curve_of(heap, &[(0, 200_000); 11])?, 10, 0)?;
    curve_of(heap, &[(1, 5)])??;
    curve_of(heap, &[(1, 5); 10])??;
    Ok(())
}

#[test]
fn widths(rt: HostRuntime) -> Result<(), Fail> {
    let heap = rt.alloc();
    let mut ten = [(1_000, 7); 10];
    curve_of(heap, &ten)??;
    curve_of(heap, &[(10_000, 7)])??;
    check_refused(&rt, curve_of(heap, &[(0, 7)])?, 10, 1)?;
    check_refused(&rt, curve_of(heap, &[(10_001, 7)])?, 10, 1)?;
    check_refused(&rt, curve_of(heap, &[(u64::MAX, 7)])?, 10, 1)?;
    check_refused(&rt, curve_of(heap, &[(10_000, 7), (u64::MAX, 7)])?, 10, 2)?;
    ten[9] = (1_001, 7);
    check_refused(&rt, curve_of(heap, &ten)?, 10, 10)?;
    ten[9] = (0, 7);
    check_refused(&rt, curve_of(heap, &ten)?, 10, 10)
}

#[test]
fn prices_in_range(rt: HostRuntime) -> Result<(), Fail> {
    let heap = rt.alloc();
    for price in [100_000, -100_000, 0] {
        curve_of(heap, &[(1, price)])??;
    }
    for price in [100_001, -100_001, i64::MAX, i64::MIN] {
        check_refused(&rt, curve_of(heap, &[(1, price)])?, 11, 1)?;
    }
    let mut ten = [(1, 7); 10];
    ten[9] = (1, 100_001);
    check_refused(&rt, curve_of(heap, &ten)?, 11, 10)
}

#[test]
fn falling_prices(rt: HostRuntime) -> Result<(), Fail> {
    let heap = rt.alloc();
    check_refused(&rt, curve_of(heap, &[(1, 5), (1, 4)])?, 12, 2)?;
    let mut ten = [(1, 7); 10];
    ten[9] = (1, 6);
    check_refused(&rt, curve_of(heap, &ten)?, 12, 10)?;
    curve_of(heap, &[(1, -100_000), (1, -100_000), (1, 100_000)])??;
    Ok(())
}

// Block by block, and in each the width, then the range, then the order.
#[test]
fn first_fault_counts(rt: HostRuntime) -> Result<(), Fail> {
    let heap = rt.alloc();
    check_refused(&rt, curve_of(heap, &[(1, 5), (1, 4), (0, 0)])?, 12, 2)?;
    check_refused(&rt, curve_of(heap, &[(1, 5), (0, 4)])?, 10, 2)?;
    check_refused(&rt, curve_of(heap, &[(0, 200_000)])?, 10, 1)?;
    check_refused(&rt, curve_of(heap, &[(10_001, 200_000)])?, 10, 1)?;
    check_refused(&rt, curve_of(heap, &[(1, 5), (1, -200_000)])?, 11, 2)?;
    check_refused(&rt, curve_of(heap, &[(1, 200_000), (0, 0)])?, 11, 1)
}

#[test]
fn answers_of_b(rt: HostRuntime) -> Result<(), Fail> {
    let b = curve_b(rt.alloc())?;
    check_prices(
        &rt,
        &b,
        &[(1, 2_000), (100, 2_000), (101, 3_000), (200, 3_000)],
    )?;
    check_costs(
        &rt,
        &b,
        &[
            (0, 0),
            (1, 2_000),
            (100, 200_000),
            (101, 203_000),
            (200, 500_000),
        ],
    )?;
    check_counts(
        &rt,
        &b,
        &[
            (i64::MIN, 0),
            (1_999, 0),
            (2_000, 100),
            (2_999, 100),
            (3_000, 200),
            (i64::MAX, 200),
        ],
    );
    check_beyond(&rt, &b, 200)
}

#[test]
fn negative_prices(rt: HostRuntime) -> Result<(), Fail> {
    let curve = curve_of(rt.alloc(), &[(10, -50), (5, -50), (5, 20)])??;
    check_prices(&rt, &curve, &[(10, -50), (15, -50), (16, 20)])?;
    check_costs(&rt, &curve, &[(10, -500), (15, -750), (20, -650)])?;
    check_counts(&rt, &curve, &[(-51, 0), (-50, 15), (19, 15), (20, 20)]);
    check_beyond(&rt, &curve, 20)
}

// The largest cost that a curve can have, either way.
#[test]
fn largest_costs(rt: HostRuntime) -> Result<(), Fail> {
    let high = curve_of(rt.alloc(), &[(10_000, 100_000)])??;
    let low = curve_of(rt.alloc(), &[(10_000, -100_000)])??;
    check_costs(&rt, &high, &[(10_000, 1_000_000_000)])?;
    check_costs(&rt, &low, &[(10_000, -1_000_000_000)])?;
    check_beyond(&rt, &high, 10_000)
}

#[test]
fn sentences(rt: HostRuntime) -> Result<(), Fail> {
    let heap = rt.alloc();
    let table = [
        (
            CurveRefusal::BlockCount,
            "an offer has 1 to 10 blocks (place 0)",
        ),
        (CurveRefusal::EmptyBlock(1), "block 1 has no tenths"),
        (
            CurveRefusal::TooWide(10),
            "with block 10 the widths pass 10000 tenths",
        ),
        (
            CurveRefusal::PriceOutOfRange(2),
            "the price of block 2 is not from -100000 to 100000",
        ),
        (
            CurveRefusal::CapOutOfRange,
            "the limit of the cap is not from -100000 to 100000 (place 0)",
        ),
        (
            CurveRefusal::AdderOutOfRange,
            "the adder takes a price out of -100000 to 100000 (place 0)",
        ),
        (
            CurveRefusal::PriceFalls(2),
            "the price of block 2 is below that of the block before",
        ),
        (CurveRefusal::NoSuchTenth(201), "the curve has no tenth 201"),
    ];
    for (refusal, words) in table {
        let said = format!(in heap; "{refusal}")?;
        assert!(rt; said.as_str() == words);
    }
    Ok(())
}

#[test]
fn reported(rt: HostRuntime) -> Result<(), Fail> {
    let heap = rt.alloc();
    let falls = Reported(CurveRefusal::PriceFalls(2));
    let none = Reported(CurveRefusal::BlockCount);
    let said = format!(in heap; "{falls}; {none}")?;
    assert!(rt;
        said.as_str()
            == "refused 12 curve 2: the price of block 2 is below that of the block before; refused 10 curve 0: an offer has 1 to 10 blocks (place 0)"
    );
    Ok(())
}
