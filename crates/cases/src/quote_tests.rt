// Offers as text, executed: what is wrong with them, and what lies over what.

use super::support::*;
use offers::CurveRefusal;
use quotes::{LineFault, OfferFault, Quote, price_offer, read_offer};
use std::alloc::Global;
use std::test::Fail;

fn quote_of(heap: Global, text: &str) -> Result<Quote, OfferFault> {
    let offer = read_offer(heap, lines_of(heap, text)?.as_slice())?;
    price_offer(heap, &offer)
}

// The price of the last tenth.
fn top_price(heap: Global, text: &str) -> Result<Option<i64>, Fail> {
    let quote = quote_of(heap, text)?;
    Ok(quote.points.last().map(|point| point.price))
}

#[test]
fn wrong_lines(rt: HostRuntime) {
    check_faults(
        &rt,
        |text| quote_of(rt.alloc(), text).err(),
        &[
            (
                "# an offer\n\nblocks 1 2\n",
                line(3, LineFault::UnknownItem),
            ),
            ("block 1", line(1, LineFault::WordCount)),
            ("block 1 2\n  cap 3 4", line(2, LineFault::WordCount)),
            ("block -1 2", line(1, LineFault::NotANumber)),
            ("block 1 2\nmarket 3x", line(2, LineFault::NotANumber)),
        ],
    );
}

#[test]
fn second_cap_and_adder(rt: HostRuntime) {
    check_faults(
        &rt,
        |text| quote_of(rt.alloc(), text).err(),
        &[
            ("cap 1\nadder 2\ncap 1", line(3, LineFault::SecondCap)),
            ("adder 1\n# more\nadder 1", line(3, LineFault::SecondAdder)),
        ],
    );
}

#[test]
fn extreme_numbers(rt: HostRuntime) {
    let heap = rt.alloc();
    check_faults(
        &rt,
        |text| quote_of(heap, text).err(),
        &[
            (
                "block 18446744073709551615 0",
                OfferFault::Refused(CurveRefusal::TooWide(1)),
            ),
            (
                "block 1 -9223372036854775808",
                OfferFault::Refused(CurveRefusal::PriceOutOfRange(1)),
            ),
            (
                "block 18446744073709551616 0",
                line(1, LineFault::NotANumber),
            ),
            (
                "market -9223372036854775809",
                line(1, LineFault::NotANumber),
            ),
            ("market 9223372036854775808", line(1, LineFault::NotANumber)),
        ],
    );
}

#[test]
fn refused_offers(rt: HostRuntime) {
    check_faults(
        &rt,
        |text| quote_of(rt.alloc(), text).err(),
        &[
            ("", OfferFault::Refused(CurveRefusal::BlockCount)),
            (
                "block 100 3000\nblock 100 2000",
                OfferFault::Refused(CurveRefusal::PriceFalls(2)),
            ),
            (
                "block 1 0\ncap 100001",
                OfferFault::Refused(CurveRefusal::CapOutOfRange),
            ),
            (
                "block 1 99000\nadder 1001",
                OfferFault::Refused(CurveRefusal::AdderOutOfRange),
            ),
        ],
    );
}

#[test]
fn what_lies_on_top(rt: HostRuntime) -> Result<(), Fail> {
    let heap = rt.alloc();
    assert_eq!(rt; top_price(heap, "block 10 2000")?, Some(2000));
    assert_eq!(rt;
        top_price(heap, "block 10 2000\nadder 300\ncap 2100")?,
        Some(2100)
    );
    assert_eq!(rt;
        top_price(heap, "cap 1900\nadder 300\nblock 10 2000")?,
        Some(2200)
    );
    Ok(())
}
