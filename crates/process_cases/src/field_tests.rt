// Fields at and beyond their limits, and the order in which a record's faults are told.

use super::support::*;
use market::{DayAhead, MarketProcess, ProcessRefusal, Ruc};
use offers::BlockCurve;
use std::alloc::Global;
use std::process::Abort;
use std::test::Fail;

// Field, lowest and highest number.
const HOUR_FIELDS: [(u64, i64, i64); 5] = [
    (1, 0, 10_000),
    (2, -100_000, 100_000),
    (3, 0, 10_000_000),
    (4, 0, 400_000_000),
    (5, 0, 400_000_000),
];

const INTERVAL_FIELDS: [(u64, i64, i64); 11] = [
    (1, 0, 10_000),
    (2, 0, 10_000),
    (3, 0, 10_000),
    (4, 0, 10_000),
    (5, 0, 10_000),
    (6, 0, 10_000),
    (7, -100_000, 100_000),
    (8, 0, 10_000_000),
    (9, 0, 1),
    (10, -500_000_000, 500_000_000),
    (11, 0, 400_000_000),
];

// The idle record is taken with a field at either limit, and refused for a field beyond one.
fn check_every_field<P: MarketProcess, F: Fn(P::Record, u64, i64) -> P::Record>(
    rt: &impl Abort,
    process: &P,
    fields: &[(u64, i64, i64)],
    idle: P::Record,
    with: F,
)
where
    P::Record: Copy,
    requires { F.IsAlwaysCallable with }
{
    for &(field, lowest, highest) in fields {
        for value in [
            lowest.saturating_sub(1),
            highest.saturating_add(1),
            i64::MIN,
            i64::MAX,
        ] {
            check_field(rt, process.settle(&with(idle, field, value)), field);
        }
        for value in [lowest, highest] {
            assert!(rt; process.settle(&with(idle, field, value)).is_ok());
        }
    }
}

// Of two faulty fields the lower is told.
fn check_pairs<P: MarketProcess, F: Fn(P::Record, u64, i64) -> P::Record>(
    rt: &impl Abort,
    process: &P,
    fields: &[(u64, i64, i64)],
    idle: P::Record,
    with: F,
)
where
    P::Record: Copy,
    requires { F.IsAlwaysCallable with }
{
    for &(low, lowest, _) in fields {
        for &(high, _, highest) in fields {
            if low < high {
                let one = with(idle, low, lowest.saturating_sub(1));
                let both = with(one, high, highest.saturating_add(1));
                check_field(rt, process.settle(&both), low);
            }
        }
    }
}

// Processes on curves with as many tenths as a curve may have.
fn widest_hours(heap: Global) -> Result<DayAhead<BlockCurve>, Fail> {
    Ok(DayAhead {
        curve: widest(heap)?,
    })
}

fn widest_intervals(heap: Global) -> Result<Ruc<BlockCurve, BlockCurve>, Fail> {
    Ok(Ruc {
        committed: widest(heap)?,
        current: widest(heap)?,
    })
}

#[test]
fn every_field_of_an_hour(rt: HostRuntime) -> Result<(), Fail> {
    let process = widest_hours(rt.alloc())?;
    check_every_field(&rt, &process, &HOUR_FIELDS, IDLE_HOUR, hour_with);
    Ok(())
}

#[test]
fn every_field_of_an_interval(rt: HostRuntime) -> Result<(), Fail> {
    let process = widest_intervals(rt.alloc())?;
    check_every_field(
        &rt,
        &process,
        &INTERVAL_FIELDS,
        IDLE_INTERVAL,
        interval_with,
    );
    Ok(())
}

#[test]
fn pairs_of_an_hour(rt: HostRuntime) -> Result<(), Fail> {
    let process = widest_hours(rt.alloc())?;
    check_pairs(&rt, &process, &HOUR_FIELDS, IDLE_HOUR, hour_with);
    Ok(())
}

#[test]
fn pairs_of_an_interval(rt: HostRuntime) -> Result<(), Fail> {
    let process = widest_intervals(rt.alloc())?;
    check_pairs(
        &rt,
        &process,
        &INTERVAL_FIELDS,
        IDLE_INTERVAL,
        interval_with,
    );
    Ok(())
}

// A maximum below the commitment minimum is a fault of field 3, in its turn.
#[test]
fn maximum_below_the_commitment_minimum(rt: HostRuntime) -> Result<(), Fail> {
    let process = widest_intervals(rt.alloc())?;
    let below = interval_with(interval_with(IDLE_INTERVAL, 1, 100), 3, 99);
    check_field(&rt, process.settle(&below), 3);
    check_field(&rt, process.settle(&interval_with(below, 1, 10_001)), 1);
    check_field(&rt, process.settle(&interval_with(below, 2, -1)), 2);
    for (field, _, highest) in INTERVAL_FIELDS {
        if field > 3 {
            let both = interval_with(below, field, highest.saturating_add(1));
            check_field(&rt, process.settle(&both), 3);
        }
    }
    assert!(rt; process.settle(&interval_with(below, 3, 100)).is_ok());
    Ok(())
}

#[test]
fn fields_before_tenths(rt: HostRuntime) -> Result<(), Fail> {
    let heap = rt.alloc();
    let hours = DayAhead {
        curve: curve_b(heap)?,
    };
    let far = hour_with(IDLE_HOUR, 1, 201);
    check_tenth(&rt, hours.settle(&far), 201);
    check_field(&rt, hours.settle(&hour_with(far, 5, -1)), 5);
    assert!(rt; hours.settle(&hour_with(IDLE_HOUR, 1, 200)).is_ok());
    let intervals = Ruc {
        committed: curve_b(heap)?,
        current: curve_b(heap)?,
    };
    let beyond = interval_with(IDLE_INTERVAL, 1, 201);
    check_tenth(&rt, intervals.settle(&beyond), 201);
    let both = interval_with(beyond, 11, 400_000_001);
    check_field(&rt, intervals.settle(&both), 11);
    Ok(())
}

#[test]
fn sentences(rt: HostRuntime) -> Result<(), Fail> {
    let heap = rt.alloc();
    let field = ProcessRefusal::FieldOutsideLimits(11);
    let tenth = ProcessRefusal::NoSuchTenth(201);
    let said = format!(in heap; "{field}; {tenth}")?;
    assert!(rt;
        said.as_str() == "field 11 of the record is outside its limits; the curve has no tenth 201"
    );
    Ok(())
}
