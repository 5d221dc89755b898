// Units as text, executed: what is wrong with them, and what they are told.

use super::support::*;
use market::{Amounts, ProcessRefusal};
use offers::CurveRefusal;
use quotes::{LineFault, OfferFault, Unit, UnitFault, price_offer, read_unit};
use statements::{RucStatement, Statement, settle_unit};
use std::alloc::Global;
use std::process::Abort;
use std::test::Fail;

const NOTHING: Statement = Statement {
    day_ahead: None,
    ruc: None,
};

fn unit_of(heap: Global, text: &str) -> Result<Unit, UnitFault> {
    let lines = lines_of(heap, text).map_err(OfferFault::from)?;
    read_unit(heap, lines.as_slice())
}

fn statement_of(heap: Global, text: &str) -> Result<Statement, UnitFault> {
    let unit = unit_of(heap, text)?;
    Ok(settle_unit(heap, &unit)?)
}

// That the line is a second one of its kind.
fn check_second(rt: &impl Abort, heap: Global, text: &str, fault: UnitFault) {
    assert_eq!(rt; statement_of(heap, text).err(), Some(fault));
}

fn hour(cost: i64, revenue: i64) -> Option<Result<Amounts, ProcessRefusal>> {
    Some(Ok(Amounts {
        cost,
        revenue,
        disallowed: 0,
    }))
}

fn interval(amounts: Amounts, economic_point: u64) -> Option<Result<RucStatement, ProcessRefusal>> {
    Some(Ok(RucStatement {
        amounts,
        economic_point,
    }))
}

#[test]
fn wrong_record_lines(rt: HostRuntime) {
    check_faults(
        &rt,
        |text| statement_of(rt.alloc(), text).err(),
        &[
            ("day-ahead", line(1, LineFault::WordCount)),
            ("day-ahead 1 2 3 4", line(1, LineFault::WordCount)),
            ("day-ahead 1 2 3 4 5 6", line(1, LineFault::WordCount)),
            ("ruc 1 2 3 4 5 6 7 8 9 10", line(1, LineFault::WordCount)),
            (
                "ruc 1 2 3 4 5 6 7 8 9 10 11 12",
                line(1, LineFault::WordCount),
            ),
            ("current 1", line(1, LineFault::WordCount)),
            ("current-offer", line(1, LineFault::UnknownItem)),
            ("day-ahead x 2 3 4", line(1, LineFault::WordCount)),
            ("day-ahead 1 2 3 4 x", line(1, LineFault::NotANumber)),
            (
                "\nruc 9223372036854775808 2 3 4 5 6 7 8 9 10 11",
                line(2, LineFault::NotANumber),
            ),
        ],
    );
}

#[test]
fn second_lines(rt: HostRuntime) {
    let heap = rt.alloc();
    check_second(
        &rt,
        heap,
        "current\nblock 1 2\ncurrent",
        UnitFault::SecondCurrent(3),
    );
    check_second(
        &rt,
        heap,
        "day-ahead 1 2 3 4 5\ncurrent\nday-ahead 1 2 3 4 5",
        UnitFault::SecondDayAhead(3),
    );
    check_second(
        &rt,
        heap,
        "ruc 1 2 3 4 5 6 7 8 9 10 11\nruc 1 2 3 4 5 6 7 8 9 10 11",
        UnitFault::SecondRuc(2),
    );
    check_faults(
        &rt,
        |text| statement_of(heap, text).err(),
        &[(
            "cap 1\ncurrent\ncap 2\ncap 3",
            line(4, LineFault::SecondCap),
        )],
    );
}

#[test]
fn first_fault_first(rt: HostRuntime) {
    let heap = rt.alloc();
    check_faults(
        &rt,
        |text| statement_of(heap, text).err(),
        &[
            (
                "day-ahead 1 2 3 4 5\nday-ahead 1\nruc",
                line(2, LineFault::WordCount),
            ),
            ("block 0 1\nruc x", line(2, LineFault::WordCount)),
            (
                "block 0 1\ncurrent",
                OfferFault::Refused(CurveRefusal::EmptyBlock(1)),
            ),
            (
                "block 1 0\ncap 100001\ncurrent",
                OfferFault::Refused(CurveRefusal::CapOutOfRange),
            ),
        ],
    );
}

#[test]
fn refused_current_offers(rt: HostRuntime) {
    check_faults(
        &rt,
        |text| statement_of(rt.alloc(), text).err(),
        &[
            (
                "block 100 2000\ncurrent\nday-ahead 50 0 0 0 0",
                OfferFault::Refused(CurveRefusal::BlockCount),
            ),
            (
                "block 1 0\ncurrent\nblock 1 99000\nadder 1001",
                OfferFault::Refused(CurveRefusal::AdderOutOfRange),
            ),
        ],
    );
}

#[test]
fn nothing_asked(rt: HostRuntime) -> Result<(), Fail> {
    let heap = rt.alloc();
    assert_eq!(rt; statement_of(heap, "block 100 2000")?, NOTHING);
    assert_eq!(rt;
        statement_of(heap, "block 100 2000\ncurrent\nblock 1 0\ncap 0\nadder 1")?,
        NOTHING
    );
    Ok(())
}

#[test]
fn worked_hour_and_interval(rt: HostRuntime) -> Result<(), Fail> {
    let heap = rt.alloc();
    let found = statement_of(
        heap,
        "block 100 2000\nblock 100 3000\nday-ahead 150 2200 6000 0 0\nruc 100 100 200 140 150 9 2495 0 0 0 0\ncurrent\nblock 100 2000\nblock 100 3000\nadder 300",
    )?;
    let amounts = Amounts {
        cost: 365_000,
        revenue: 374_250,
        disallowed: 165_000,
    };
    assert_eq!(rt;
        found,
        Statement {
            day_ahead: hour(4_920_000, 3_960_000),
            ruc: interval(amounts, 100),
        }
    );
    Ok(())
}

// The offer at commitment stands for the current one.
#[test]
fn no_current_offer(rt: HostRuntime) -> Result<(), Fail> {
    let heap = rt.alloc();
    let found = statement_of(
        heap,
        "ruc 100 100 200 140 150 9 3000 0 0 0 0\nblock 100 2000\nblock 100 3000\nadder 300\ncap 3100",
    )?;
    let amounts = Amounts {
        cost: 385_000,
        revenue: 450_000,
        disallowed: 155_000,
    };
    assert_eq!(rt;
        found,
        Statement {
            day_ahead: None,
            ruc: interval(amounts, 100),
        }
    );
    Ok(())
}

#[test]
fn refused_records(rt: HostRuntime) -> Result<(), Fail> {
    let heap = rt.alloc();
    assert_eq!(rt;
        statement_of(
            heap,
            "block 200 0\nday-ahead 0 0 -1 0 0\nruc 100 0 99 0 0 0 0 0 0 0 0",
        )?,
        Statement {
            day_ahead: Some(Err(ProcessRefusal::FieldOutsideLimits(3))),
            ruc: Some(Err(ProcessRefusal::FieldOutsideLimits(3))),
        }
    );
    assert_eq!(rt;
        statement_of(
            heap,
            "block 200 0\nday-ahead 201 0 0 0 0\ncurrent\nblock 300 0\nruc 201 0 300 0 0 0 0 0 0 0 0",
        )?,
        Statement {
            day_ahead: Some(Err(ProcessRefusal::NoSuchTenth(201))),
            ruc: Some(Err(ProcessRefusal::NoSuchTenth(201))),
        }
    );
    assert_eq!(rt;
        statement_of(
            heap,
            "block 200 0\nday-ahead 200 10 0 0 0\ncurrent\nblock 100 0\nruc 100 0 100 0 101 0 0 0 0 0 0",
        )?,
        Statement {
            day_ahead: hour(0, 24_000),
            ruc: Some(Err(ProcessRefusal::NoSuchTenth(101))),
        }
    );
    Ok(())
}

// An offer alone is a unit without records.
#[test]
fn wrong_lines_of_an_offer_alone(rt: HostRuntime) {
    check_faults(
        &rt,
        |text| statement_of(rt.alloc(), text).err(),
        &[
            (
                "# an offer\n\nblocks 1 2\n",
                line(3, LineFault::UnknownItem),
            ),
            ("block 1", line(1, LineFault::WordCount)),
            ("block 1 2\n  cap 3 4", line(2, LineFault::WordCount)),
            ("block -1 2", line(1, LineFault::NotANumber)),
            ("block 1 2\nmarket 3x", line(2, LineFault::NotANumber)),
            ("cap 1\nadder 2\ncap 1", line(3, LineFault::SecondCap)),
            ("adder 1\n# more\nadder 1", line(3, LineFault::SecondAdder)),
            (
                "block 18446744073709551616 0",
                line(1, LineFault::NotANumber),
            ),
            (
                "market -9223372036854775809",
                line(1, LineFault::NotANumber),
            ),
            ("market 9223372036854775808", line(1, LineFault::NotANumber)),
        ],
    );
}

#[test]
fn refused_offers_alone(rt: HostRuntime) {
    check_faults(
        &rt,
        |text| statement_of(rt.alloc(), text).err(),
        &[
            ("", OfferFault::Refused(CurveRefusal::BlockCount)),
            (
                "block 18446744073709551615 0",
                OfferFault::Refused(CurveRefusal::TooWide(1)),
            ),
            (
                "block 1 -9223372036854775808",
                OfferFault::Refused(CurveRefusal::PriceOutOfRange(1)),
            ),
            (
                "block 100 3000\nblock 100 2000",
                OfferFault::Refused(CurveRefusal::PriceFalls(2)),
            ),
            (
                "block 1 0\ncap 100001",
                OfferFault::Refused(CurveRefusal::CapOutOfRange),
            ),
            (
                "block 1 99000\nadder 1001",
                OfferFault::Refused(CurveRefusal::AdderOutOfRange),
            ),
        ],
    );
}

#[test]
fn what_lies_on_top_of_an_offer_alone(rt: HostRuntime) -> Result<(), Fail> {
    let heap = rt.alloc();
    for (text, top_price) in [
        ("block 10 2000", 2000),
        ("block 10 2000\nadder 300\ncap 2100", 2100),
        ("cap 1900\nadder 300\nblock 10 2000", 2200),
    ] {
        let unit = unit_of(heap, text)?;
        let quote = price_offer(heap, &unit.committed)?;
        assert_eq!(rt;
            quote.points.last().map(|point| point.price),
            Some(top_price)
        );
    }
    Ok(())
}
