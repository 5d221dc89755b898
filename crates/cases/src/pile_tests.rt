// Caps and adders, executed: which are made, and what piles of them answer.

use super::held::{Held, count_held};
use super::laid::price_laid_twice;
use super::support::*;
use offers::{Adder, BlockCurve, Cap, price_over};
use quotes::{Pile, PiledCurve};
use std::alloc::Global;
use std::test::Fail;

fn level(heap: Global, price: i64) -> Result<BlockCurve, Fail> {
    Ok(curve_of(heap, &[(10, price)])??)
}

#[test]
fn limits_of_a_cap(rt: HostRuntime) -> Result<(), Fail> {
    let heap = rt.alloc();
    for limit in [100_001, -100_001, i64::MAX, i64::MIN] {
        check_refused(&rt, Cap::new(curve_b(heap)?, limit), 11, 0)?;
    }
    for limit in [100_000, -100_000, 0] {
        Cap::new(curve_b(heap)?, limit)?;
    }
    Ok(())
}

#[test]
fn numbers_of_an_adder(rt: HostRuntime) -> Result<(), Fail> {
    let heap = rt.alloc();
    for added in [97_001, -102_001, i64::MAX, i64::MIN] {
        check_refused(&rt, Adder::new(curve_b(heap)?, added), 11, 0)?;
    }
    for added in [97_000, -102_000, 0] {
        Adder::new(curve_b(heap)?, added)?;
    }
    Ok(())
}

// A number as large as the whole range is taken where every sum stays in it.
#[test]
fn largest_numbers_of_an_adder(rt: HostRuntime) -> Result<(), Fail> {
    let heap = rt.alloc();
    check_refused(&rt, Adder::new(level(heap, -100_000)?, 200_001), 11, 0)?;
    check_refused(&rt, Adder::new(level(heap, 100_000)?, -200_001), 11, 0)?;
    let up = Adder::new(level(heap, -100_000)?, 200_000)?;
    let down = Adder::new(level(heap, 100_000)?, -200_000)?;
    check_costs(&rt, &up, &[(10, 1_000_000)])?;
    check_counts(&rt, &up, &[(99_999, 0), (100_000, 10), (i64::MAX, 10)]);
    check_costs(&rt, &down, &[(10, -1_000_000)])?;
    check_counts(&rt, &down, &[(i64::MIN, 0), (-100_001, 0), (-100_000, 10)]);
    Ok(())
}

#[test]
fn cap_at_the_ends_of_the_range(rt: HostRuntime) -> Result<(), Fail> {
    let heap = rt.alloc();
    let low = Cap::new(curve_b(heap)?, -100_000)?;
    check_costs(&rt, &low, &[(0, 0), (200, -20_000_000)])?;
    check_counts(&rt, &low, &[(-100_001, 0), (-100_000, 200)]);
    let high = Cap::new(curve_b(heap)?, 100_000)?;
    check_costs(&rt, &high, &[(200, 500_000)])?;
    check_counts(&rt, &high, &[(2_999, 100), (99_999, 200), (i64::MAX, 200)]);
    check_beyond(&rt, &high, 200)
}

// Prices 2,300 and 2,800.
#[test]
fn held_in_a_field(rt: HostRuntime) -> Result<(), Fail> {
    let held = Held {
        pile: Adder::new(Cap::new(curve_b(rt.alloc())?, 2_500)?, 300)?,
    };
    for (price, tenths) in [(2_299, 0), (2_300, 100), (2_799, 100), (2_800, 200)] {
        assert_eq!(rt; count_held(&held, price), tenths);
    }
    Ok(())
}

// Prices 2,300 and 2,500.
#[test]
fn cap_over_adder(rt: HostRuntime) -> Result<(), Fail> {
    let adder = Adder::new(curve_b(rt.alloc())?, 300)?;
    let pile = Cap::new(adder, 2_500)?;
    check_prices(
        &rt,
        &pile,
        &[(1, 2_300), (100, 2_300), (101, 2_500), (200, 2_500)],
    )?;
    check_costs(
        &rt,
        &pile,
        &[(0, 0), (100, 230_000), (101, 232_500), (200, 480_000)],
    )?;
    check_counts(
        &rt,
        &pile,
        &[
            (i64::MIN, 0),
            (2_299, 0),
            (2_300, 100),
            (2_499, 100),
            (2_500, 200),
            (i64::MAX, 200),
        ],
    );
    check_beyond(&rt, &pile, 200)
}

// Prices 2,300 and 2,800.
#[test]
fn adder_over_cap(rt: HostRuntime) -> Result<(), Fail> {
    let cap = Cap::new(curve_b(rt.alloc())?, 2_500)?;
    let pile = Adder::new(cap, 300)?;
    check_prices(
        &rt,
        &pile,
        &[(1, 2_300), (100, 2_300), (101, 2_800), (200, 2_800)],
    )?;
    check_costs(
        &rt,
        &pile,
        &[(0, 0), (100, 230_000), (101, 232_800), (200, 510_000)],
    )?;
    check_counts(
        &rt,
        &pile,
        &[
            (i64::MIN, 0),
            (2_299, 0),
            (2_300, 100),
            (2_799, 100),
            (2_800, 200),
            (i64::MAX, 200),
        ],
    );
    check_beyond(&rt, &pile, 200)
}

// Four deep: 100 tenths at 2,000 - 102,000 + 1,000 = -99,000, and 100 at 3,000, capped at 2,500, so at -98,500.
#[test]
fn four_deep(rt: HostRuntime) -> Result<(), Fail> {
    let cap = Cap::new(curve_b(rt.alloc())?, 2_500)?;
    let down = Adder::new(cap, -102_000)?;
    let up = Adder::new(down, 1_000)?;
    let pile = Cap::new(up, 100_000)?;
    check_prices(&rt, &pile, &[(100, -99_000), (101, -98_500)])?;
    check_costs(&rt, &pile, &[(200, -19_750_000)])?;
    check_counts(&rt, &pile, &[(-99_001, 0), (-99_000, 100), (-98_500, 200)]);
    check_beyond(&rt, &pile, 200)
}

// What lies on the blocks of an offer is known once it is read: 100 tenths at the first price, and 100 at the last.
#[test]
fn piles_of_offers(rt: HostRuntime) -> Result<(), Fail> {
    let heap = rt.alloc();
    let (limit, added) = (2_500, 300);
    for (pile, first, last, cost) in [
        (Pile::Bare, 2_000, 3_000, 500_000),
        (Pile::Cap { limit }, 2_000, 2_500, 450_000),
        (Pile::Adder { added }, 2_300, 3_300, 560_000),
        (Pile::CapOverAdder { limit, added }, 2_300, 2_500, 480_000),
        (Pile::AdderOverCap { added, limit }, 2_300, 2_800, 510_000),
    ] {
        let curve = PiledCurve::new(curve_b(heap)?, pile)?;
        check_prices(
            &rt,
            &curve,
            &[(1, first), (100, first), (101, last), (200, last)],
        )?;
        check_costs(&rt, &curve, &[(0, 0), (200, cost)])?;
        check_counts(&rt, &curve, &[(0, 0), (first, 100), (last, 200)]);
        check_beyond(&rt, &curve, 200)?;
    }
    Ok(())
}

#[test]
fn piles_of_offers_refused(rt: HostRuntime) -> Result<(), Fail> {
    let heap = rt.alloc();
    for pile in [
        Pile::Cap { limit: 100_001 },
        Pile::Adder { added: 97_001 },
        Pile::CapOverAdder {
            limit: 2_500,
            added: 97_001,
        },
        Pile::AdderOverCap {
            added: 300,
            limit: 100_001,
        },
    ] {
        check_refused(&rt, PiledCurve::new(curve_b(heap)?, pile), 11, 0)?;
    }
    Ok(())
}

#[test]
fn laid_and_asked_at_once(rt: HostRuntime) -> Result<(), Fail> {
    let heap = rt.alloc();
    let capped = price_over::<BlockCurve, Cap<BlockCurve>>(curve_b(heap)?, 2_500, 101);
    assert_eq!(rt; capped, Ok(2_500));
    let raised = price_over::<BlockCurve, Adder<BlockCurve>>(curve_b(heap)?, 300, 101);
    assert_eq!(rt; raised, Ok(3_300));
    let both = price_laid_twice(curve_b(heap)?, 2_500, 300, 101);
    assert_eq!(rt; both, Ok(2_800));
    let beyond = price_over::<BlockCurve, Cap<BlockCurve>>(curve_b(heap)?, 2_500, 201);
    check_refused(&rt, beyond, 13, 201)?;
    let dear = price_over::<BlockCurve, Adder<BlockCurve>>(curve_b(heap)?, 97_001, 1);
    check_refused(&rt, dear, 11, 0)
}
