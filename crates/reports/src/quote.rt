// The lines of a quote.

use quotes::{Dispatch, Point, Quote};
use std::fmt;

// The prices and costs at the ends of the blocks.
#[derive(Drop)]
pub struct PointLines<'a>(pub &'a Quote);

// The tenths that run at the market prices.
#[derive(Drop)]
pub struct DispatchLines<'a>(pub &'a Quote);

impl fmt::Display for PointLines<'_> {
    fn fmt<W: fmt::Write>(&self, f: &mut fmt::Formatter<W>) -> fmt::Result {
        writeln!(
            f,
            "prices and costs (cents per MWh; ticks an interval, a tick is 1/120 cent)"
        )?;
        for point in &self.0.points {
            let Point { tenth, price, cost } = *point;
            let mark = if tenth == self.0.top { " (top)" } else { "" };
            writeln!(f, "  tenth {tenth}: price {price}, cost {cost}{mark}")?;
        }
        Ok(())
    }
}

impl fmt::Display for DispatchLines<'_> {
    fn fmt<W: fmt::Write>(&self, f: &mut fmt::Formatter<W>) -> fmt::Result {
        writeln!(f, "tenths that run (at a market price in cents per MWh)")?;
        for dispatch in &self.0.dispatches {
            let Dispatch { market, tenths } = *dispatch;
            writeln!(f, "  at {market}: {tenths}")?;
        }
        Ok(())
    }
}
