// The report of a unit: its offers with their quotes, then its statement.

use quotes::{Offer, Quote, Unit};
use reports::{DispatchLines, OfferLines, PointLines, StatementLines};
use statements::Statement;
use std::fmt;

#[derive(Drop)]
pub struct Report<'a> {
    pub unit: &'a Unit,
    pub committed: &'a Quote,
    pub current: &'a Quote,
    pub statement: Statement,
}

// An offer with its quote. Where no market price is asked about, nothing is said of what runs.
#[derive(Drop)]
struct Quoted<'a> {
    name: &'a str,
    offer: &'a Offer,
    quote: &'a Quote,
}

impl fmt::Display for Quoted<'_> {
    fn fmt<W: fmt::Write>(&self, f: &mut fmt::Formatter<W>) -> fmt::Result {
        let Quoted { name, offer, quote } = self;
        write!(f, "{}{}", OfferLines { name, offer }, PointLines(quote))?;
        if quote.dispatches.is_empty() {
            Ok(())
        } else {
            write!(f, "{}", DispatchLines(quote))
        }
    }
}

impl fmt::Display for Report<'_> {
    fn fmt<W: fmt::Write>(&self, f: &mut fmt::Formatter<W>) -> fmt::Result {
        let committed = &self.unit.committed;
        match &self.unit.current {
            Some(current) => {
                let first = Quoted {
                    name: "offer at commitment",
                    offer: committed,
                    quote: self.committed,
                };
                let second = Quoted {
                    name: "current offer",
                    offer: current,
                    quote: self.current,
                };
                write!(f, "{first}{second}")?;
            }
            None => {
                let only = Quoted {
                    name: "offer",
                    offer: committed,
                    quote: self.committed,
                };
                write!(f, "{only}")?;
            }
        }
        write!(f, "{}", StatementLines(self.statement))
    }
}
