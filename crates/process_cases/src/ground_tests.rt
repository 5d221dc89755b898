// The economic operating point, and the grounds on which cost beyond it is disallowed.

use super::support::*;
use market::{MarketProcess, Ruc, RucRecord};
use offers::{Adder, BlockCurve};
use std::alloc::Global;
use std::process::Abort;
use std::test::Fail;

// Minima 100, maximum 200, output 150 at its setpoint, tolerance 10, price 2,495.
const STEADY: RucRecord = RucRecord {
    commitment_minimum: 100,
    minimum_now: 100,
    maximum: 200,
    setpoint: 150,
    actual: 150,
    tolerance: 10,
    price: 2_495,
    no_load: 0,
    non_dispatchable: 0,
    other_revenue: 0,
    reserve_cost: 0,
};

// Decided on B, running on C.
fn unit(heap: Global) -> Result<Ruc<BlockCurve, Adder<BlockCurve>>, Fail> {
    Ok(Ruc {
        committed: curve_b(heap)?,
        current: curve_c(heap)?,
    })
}

fn check_disallowed(
    rt: &impl Abort,
    heap: Global,
    interval: RucRecord,
    ticks: i64,
) -> Result<(), Fail> {
    let amounts = unit(heap)?.settle(&interval)?;
    assert_eq!(rt; amounts.disallowed, ticks);
    Ok(())
}

// Minimum now, setpoint, non-dispatchable, and what is disallowed. C runs 100 tenths at 2,495, so the excess of an output
// of 150 is 50 x 3,300 = 165,000.
const GROUNDS: [(i64, i64, i64, i64); 14] = [
    (100, 150, 0, 0),
    (100, 140, 0, 0),
    (100, 160, 0, 0),
    (100, 139, 0, 165_000),
    (100, 161, 0, 165_000),
    (100, 150, 1, 165_000),
    (110, 150, 0, 0),
    (111, 150, 0, 165_000),
    (0, 150, 0, 0),
    (100, 139, 1, 330_000),
    (111, 139, 0, 330_000),
    (111, 150, 1, 165_000),
    (111, 139, 1, 330_000),
    (10_000, 0, 1, 330_000),
];

#[test]
fn grounds_alone_and_together(rt: HostRuntime) -> Result<(), Fail> {
    for (minimum_now, setpoint, non_dispatchable, ticks) in GROUNDS {
        let interval = RucRecord {
            minimum_now,
            setpoint,
            non_dispatchable,
            ..STEADY
        };
        check_disallowed(&rt, rt.alloc(), interval, ticks)?;
    }
    Ok(())
}

// With a minimum now of 130 the third ground still counts from the commitment minimum: 50 x 3,300, not 20 x 3,300.
#[test]
fn minimum_now_moves_no_point(rt: HostRuntime) -> Result<(), Fail> {
    let raised = RucRecord {
        minimum_now: 130,
        ..STEADY
    };
    check_disallowed(&rt, rt.alloc(), raised, 165_000)
}

// An output below the economic point costs less than the point: nothing to disallow.
#[test]
fn output_below_the_point(rt: HostRuntime) -> Result<(), Fail> {
    let cheap = RucRecord {
        price: 3_300,
        non_dispatchable: 1,
        ..STEADY
    };
    check_disallowed(&rt, rt.alloc(), cheap, 0)
}

// At negative prices a unit that stands still costs more than one that runs: 0 - 100 x -50.
#[test]
fn negative_prices_and_no_output(rt: HostRuntime) -> Result<(), Fail> {
    let heap = rt.alloc();
    let process = Ruc {
        committed: curve_of(heap, &[(200, -50)])?,
        current: curve_of(heap, &[(100, -50), (100, 20)])?,
    };
    let still = RucRecord {
        actual: 0,
        price: -50,
        ..STEADY
    };
    check_amounts(&rt, process.settle(&still), (0, 0, 5_000));
    // 150 tenths at -60: 100 x -50 + 50 x 20, and the excess over 100 tenths is 50 x 20, off its setpoint.
    let running = RucRecord {
        setpoint: 100,
        price: -60,
        ..STEADY
    };
    check_amounts(&rt, process.settle(&running), (-4_000, -9_000, 1_000));
    Ok(())
}

// Price, commitment minimum, maximum, and the point: C runs nothing below 2,300, 100 tenths below 3,300, and then all 200.
const POINTS: [(i64, i64, i64, u64); 8] = [
    (2_299, 0, 200, 0),
    (2_299, 60, 200, 60),
    (2_300, 60, 200, 100),
    (3_299, 60, 200, 100),
    (3_300, 60, 200, 200),
    (3_300, 60, 180, 180),
    (2_299, 70, 70, 70),
    (100_000, 70, 70, 70),
];

#[test]
fn economic_points(rt: HostRuntime) -> Result<(), Fail> {
    let process = unit(rt.alloc())?;
    for (price, least, most, point) in POINTS {
        let interval = RucRecord {
            price,
            commitment_minimum: least,
            maximum: most,
            ..STEADY
        };
        assert_eq!(rt; process.economic_point(&interval).ok(), Some(point));
    }
    let lowered = RucRecord {
        maximum: 99,
        ..STEADY
    };
    assert!(rt; process.economic_point(&lowered).is_err());
    let beyond = RucRecord {
        actual: 201,
        ..STEADY
    };
    assert!(rt; process.economic_point(&beyond).is_err());
    Ok(())
}
