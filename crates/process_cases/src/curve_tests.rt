// Amounts along curves of any make, and the tenths that are asked of each curve.

use super::metered::{Metered, MeteredRecord};
use super::net::net_of;
use super::support::*;
use market::{DayAhead, DayAheadRecord, Figures, MarketProcess, Ruc, RucRecord};
use offers::{BlockCurve, Cap};
use std::process::Abort;
use std::test::Fail;

// What a process tells of itself is what its constants say.
fn check_figures<P: MarketProcess>(
    rt: &impl Abort,
    number: u8,
    length: u64,
    takes_over: bool,
    pot: u8,
) {
    assert_eq!(rt; P::NUMBER, number);
    assert_eq!(rt; P::LENGTH, length);
    assert_eq!(rt; P::TAKES_OVER, takes_over);
    assert_eq!(rt; P::POT, pot);
    assert_eq!(rt;
        P::figures(),
        Figures {
            number,
            length,
            takes_over,
            pot,
        }
    );
}

#[test]
fn figures_of_three_processes(rt: HostRuntime) {
    check_figures::<DayAhead<BlockCurve>>(&rt, 1, 12, true, 0);
    check_figures::<Ruc<BlockCurve, Cap<BlockCurve>>>(&rt, 2, 1, false, 1);
    check_figures::<Metered>(&rt, 7, 3, false, 1);
}

// 12 x (200,000 + 50 x 3,000 + 10 x 6,000) and 12 x 150 x 2,200.
#[test]
fn hour_of_b(rt: HostRuntime) -> Result<(), Fail> {
    let process = DayAhead {
        curve: curve_b(rt.alloc())?,
    };
    let hour = DayAheadRecord {
        cleared: 150,
        price: 2_200,
        no_load: 6_000,
        reserve_cost: 0,
        reserve_revenue: 0,
    };
    check_amounts(&rt, process.settle(&hour), (4_920_000, 3_960_000, 0));
    // A tick of reserve each way is 12 an hour.
    let reserve = DayAheadRecord {
        reserve_cost: 1,
        reserve_revenue: 1,
        ..hour
    };
    check_amounts(&rt, process.settle(&reserve), (4_920_012, 3_960_012, 0));
    check_amounts(&rt, process.settle(&hour), (4_920_000, 3_960_000, 0));
    Ok(())
}

// The ends of every range: 12 x (1,000,000,000 + 100,000,000 + 400,000,000) and 12 x (1,000,000,000 + 400,000,000).
#[test]
fn largest_hours(rt: HostRuntime) -> Result<(), Fail> {
    let heap = rt.alloc();
    let most = DayAheadRecord {
        cleared: 10_000,
        price: 100_000,
        no_load: 10_000_000,
        reserve_cost: 400_000_000,
        reserve_revenue: 400_000_000,
    };
    let dear = DayAhead {
        curve: curve_of(heap, &[(5_000, 100_000), (5_000, 100_000)])?,
    };
    check_amounts(&rt, dear.settle(&most), (18_000_000_000, 16_800_000_000, 0));
    let paid = DayAhead {
        curve: curve_of(heap, &[(5_000, -100_000), (5_000, -100_000)])?,
    };
    let least = DayAheadRecord {
        cleared: 10_000,
        price: -100_000,
        ..IDLE_HOUR
    };
    check_amounts(
        &rt,
        paid.settle(&least),
        (-12_000_000_000, -12_000_000_000, 0),
    );
    Ok(())
}

// 10 tenths at -50, sold at -60: 12 x -500 and 12 x -600. Nothing cleared costs the no-load offer alone.
#[test]
fn negative_prices_and_nothing_cleared(rt: HostRuntime) -> Result<(), Fail> {
    let process = DayAhead {
        curve: curve_of(rt.alloc(), &[(10, -50), (10, 20)])?,
    };
    let hour = DayAheadRecord {
        cleared: 10,
        price: -60,
        ..IDLE_HOUR
    };
    check_amounts(&rt, process.settle(&hour), (-6_000, -7_200, 0));
    let standing = DayAheadRecord {
        no_load: 7,
        ..IDLE_HOUR
    };
    check_amounts(&rt, process.settle(&standing), (840, 0, 0));
    check_amounts(&rt, process.settle(&IDLE_HOUR), (0, 0, 0));
    Ok(())
}

// Commitment minimum 100, maximum 150, actual output 160.
const AHEAD_OF_MAXIMUM: RucRecord = RucRecord {
    commitment_minimum: 100,
    minimum_now: 9_000,
    maximum: 150,
    setpoint: 9_000,
    actual: 160,
    tolerance: 10_000,
    price: 0,
    no_load: 0,
    non_dispatchable: 0,
    other_revenue: 0,
    reserve_cost: 0,
};

// Field 1 is asked of the commitment curve, then 1, 3 and 5 of the current one; minimum now and setpoint are asked of none,
// and output beyond the commitment minimum is not asked of the commitment curve.
#[test]
fn tenths_asked_of_each_curve(rt: HostRuntime) -> Result<(), Fail> {
    let heap = rt.alloc();
    let tops = [
        (99, 10_000, Some(100)),
        (99, 1, Some(100)),
        (100, 99, Some(100)),
        (100, 100, Some(150)),
        (100, 149, Some(150)),
        (100, 150, Some(160)),
        (100, 159, Some(160)),
        (100, 160, None),
    ];
    for (committed, current, refused) in tops {
        let process = Ruc {
            committed: curve_of(heap, &[(committed, 0)])?,
            current: curve_of(heap, &[(current, 0)])?,
        };
        let told = process.settle(&AHEAD_OF_MAXIMUM);
        match refused {
            Some(tenth) => check_tenth(&rt, told, tenth),
            None => check_amounts(&rt, told, (0, 0, 0)),
        }
    }
    Ok(())
}

// Both minima 100, maximum 200, setpoint 140, actual output 150, tolerance 10, price 2,495.
const RUNNING: RucRecord = RucRecord {
    commitment_minimum: 100,
    minimum_now: 100,
    maximum: 200,
    setpoint: 140,
    actual: 150,
    tolerance: 10,
    price: 2_495,
    no_load: 0,
    non_dispatchable: 0,
    other_revenue: 0,
    reserve_cost: 0,
};

// 100 tenths as decided on, 50 as offered now: 200,000 + 50 x 3,300 on B and C, 230,000 + 50 x 3,000 on C and B,
// and 100 x 2,300 + 50 x 2,500 where a cap lies over both. Revenue is 150 x 2,495.
#[test]
fn intervals_on_curves_of_two_makes(rt: HostRuntime) -> Result<(), Fail> {
    let heap = rt.alloc();
    let raised = Ruc {
        committed: curve_b(heap)?,
        current: curve_c(heap)?,
    };
    check_amounts(&rt, raised.settle(&RUNNING), (365_000, 374_250, 0));
    let lowered = Ruc {
        committed: curve_c(heap)?,
        current: curve_b(heap)?,
    };
    check_amounts(&rt, lowered.settle(&RUNNING), (380_000, 374_250, 0));
    let capped = Ruc {
        committed: curve_c(heap)?,
        current: Cap::new(curve_c(heap)?, 2_500)?,
    };
    check_amounts(&rt, capped.settle(&RUNNING), (355_000, 374_250, 0));
    Ok(())
}

// Output below the commitment minimum is priced as decided on, all of it: 60 x 2,000, and 60 x 2,495 earned. A cent of
// no-load an hour is 10 ticks.
#[test]
fn output_below_the_commitment_minimum(rt: HostRuntime) -> Result<(), Fail> {
    let process = Ruc {
        committed: curve_b(rt.alloc())?,
        current: curve_c(rt.alloc())?,
    };
    let low = RucRecord {
        setpoint: 60,
        actual: 60,
        ..RUNNING
    };
    check_amounts(&rt, process.settle(&low), (120_000, 149_700, 0));
    let paid = RucRecord {
        no_load: 7,
        other_revenue: -500,
        reserve_cost: 9,
        ..low
    };
    check_amounts(&rt, process.settle(&paid), (120_079, 149_200, 0));
    Ok(())
}

// No output: what is left are no-load, reserve and other revenue.
#[test]
fn no_output(rt: HostRuntime) -> Result<(), Fail> {
    let process = Ruc {
        committed: curve_b(rt.alloc())?,
        current: curve_c(rt.alloc())?,
    };
    let still = RucRecord {
        setpoint: 0,
        actual: 0,
        ..RUNNING
    };
    check_amounts(&rt, process.settle(&still), (0, 0, 0));
    let paid = RucRecord {
        no_load: 6_000,
        other_revenue: 40,
        reserve_cost: 30,
        ..still
    };
    check_amounts(&rt, process.settle(&paid), (60_030, 40, 0));
    Ok(())
}

// 3 x 500 spent and 3 x 200 earned: a net of 900, through code that knows no process.
#[test]
fn a_third_partys_process(rt: HostRuntime) -> Result<(), Fail> {
    let record = MeteredRecord {
        spent: 500,
        earned: 200,
    };
    check_amounts(&rt, Metered.settle(&record), (1_500, 600, 0));
    assert_eq!(rt; net_of(&Metered, &record).ok(), Some(900));
    let wrong = MeteredRecord {
        spent: 0,
        earned: -1,
    };
    check_field(&rt, Metered.settle(&wrong), 2);
    assert!(rt; net_of(&Metered, &wrong).is_err());
    Ok(())
}

// 4,920,000 - 3,960,000 of the hour, through the same code.
#[test]
fn net_of_an_hour(rt: HostRuntime) -> Result<(), Fail> {
    let process = DayAhead {
        curve: curve_b(rt.alloc())?,
    };
    let hour = DayAheadRecord {
        cleared: 150,
        price: 2_200,
        no_load: 6_000,
        ..IDLE_HOUR
    };
    assert_eq!(rt; net_of(&process, &hour).ok(), Some(960_000));
    Ok(())
}
