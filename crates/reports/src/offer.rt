// The lines of an offer.

use offers::Block;
use quotes::{Offer, Pile};
use std::fmt;

// An offer under its name.
#[derive(Drop)]
pub struct OfferLines<'a> {
    pub name: &'a str,
    pub offer: &'a Offer,
}

// What is named first lies on top, so it is printed last.
#[derive(Clone, Copy)]
struct PileLines(Pile);

impl fmt::Display for PileLines {
    fn fmt<W: fmt::Write>(&self, f: &mut fmt::Formatter<W>) -> fmt::Result {
        match self.0 {
            Pile::Bare => Ok(()),
            Pile::Cap { limit } => writeln!(f, "  cap {limit}"),
            Pile::Adder { added } => writeln!(f, "  adder {added}"),
            Pile::CapOverAdder { limit, added } => writeln!(f, "  adder {added}\n  cap {limit}"),
            Pile::AdderOverCap { added, limit } => writeln!(f, "  cap {limit}\n  adder {added}"),
        }
    }
}

impl fmt::Display for OfferLines<'_> {
    fn fmt<W: fmt::Write>(&self, f: &mut fmt::Formatter<W>) -> fmt::Result {
        let OfferLines { name, offer } = self;
        writeln!(f, "{name} (tenths of a megawatt, cents per MWh)")?;
        for (number, block) in (1u64..).zip(&offer.blocks) {
            let Block { width, price } = *block;
            writeln!(f, "  block {number}: {width} tenths at {price}")?;
        }
        write!(f, "{}", PileLines(offer.pile))
    }
}
