// What can be wrong with the text of a unit.

ghost use Rattle.std.specs.Prelude.{◌≡◌, Some};
ghost use Rattle.quotes.specs.UnitAnswers.{unit_sentence};
ghost use Rattle.quotes.specs.declared.unit_fault.UnitFault.TheVariants.{Offer as OfAnOffer};

use super::fault::OfferFault;
use std::error::Error;
use std::fmt;

// Why a unit was not read: what is wrong with an offer, or the line of a second one of a kind. Lines count from 1.
#[derive(Clone, Copy, Debug, PartialEq, Eq)]
pub enum UnitFault {
    Offer(OfferFault),
    SecondCurrent(u64),
    SecondDayAhead(u64),
    SecondRuc(u64),
}

impl From<OfferFault> for UnitFault {
    ghost from_gives = { λ e r. r ≡ OfAnOffer e };

    fn from(fault: OfferFault) -> UnitFault {
        UnitFault::Offer(fault)
    }
}

impl fmt::Display for UnitFault {
    ghost output = { λ fault. Some (unit_sentence fault) };

    fn fmt<W: fmt::Write>(&self, f: &mut fmt::Formatter<W>) -> fmt::Result {
        match *self {
            UnitFault::Offer(fault) => write!(f, "{fault}"),
            UnitFault::SecondCurrent(number) => write!(f, "line {number}: second current offer"),
            UnitFault::SecondDayAhead(number) => write!(f, "line {number}: second Day-Ahead hour"),
            UnitFault::SecondRuc(number) => write!(f, "line {number}: second RUC interval"),
        }
    }
}

impl Error for UnitFault {}
