// What can be wrong with an offer.

ghost use Rattle.std.specs.Prelude.{◌≡◌, Some};
ghost use Rattle.quotes.specs.Sentences.{fault_sentence, line_sentence};
ghost use Rattle.quotes.specs.declared.fault.OfferFault.TheVariants.{Memory, Refused as Denied};

use offers::{CurveRefusal, Reported};
use std::alloc::{AllocError, AllocFailed};
use std::error::Error;
use std::fmt;

// What is wrong with one line.
#[derive(Clone, Copy, Debug, PartialEq, Eq)]
pub enum LineFault {
    UnknownItem,
    WordCount,
    NotANumber,
    SecondAdder,
    SecondCap,
}

// Why an offer was not priced. Lines count from 1.
#[derive(Clone, Copy, Debug, PartialEq, Eq)]
pub enum OfferFault {
    Line { number: u64, fault: LineFault },
    Refused(CurveRefusal),
    Memory,
}

impl From<CurveRefusal> for OfferFault {
    ghost from_gives = { λ e r. r ≡ Denied e };

    fn from(refusal: CurveRefusal) -> OfferFault {
        OfferFault::Refused(refusal)
    }
}

impl From<AllocError> for OfferFault {
    ghost from_gives = { λ _ r. r ≡ Memory };

    fn from(_e: AllocError) -> OfferFault {
        OfferFault::Memory
    }
}

impl<T: Drop> From<AllocFailed<T>> for OfferFault {
    ghost from_gives = { λ _ r. r ≡ Memory };

    fn from(_e: AllocFailed<T>) -> OfferFault {
        OfferFault::Memory
    }
}

impl fmt::Display for LineFault {
    ghost output = { λ fault. Some (line_sentence fault) };

    fn fmt<W: fmt::Write>(&self, f: &mut fmt::Formatter<W>) -> fmt::Result {
        match *self {
            LineFault::UnknownItem => write!(f, "unknown item"),
            LineFault::WordCount => write!(f, "wrong number of words"),
            LineFault::NotANumber => write!(f, "not a number, or one that does not fit"),
            LineFault::SecondAdder => write!(f, "second adder"),
            LineFault::SecondCap => write!(f, "second cap"),
        }
    }
}

impl fmt::Display for OfferFault {
    ghost output = { λ fault. Some (fault_sentence fault) };

    fn fmt<W: fmt::Write>(&self, f: &mut fmt::Formatter<W>) -> fmt::Result {
        match *self {
            OfferFault::Line { number, fault } => write!(f, "line {number}: {fault}"),
            OfferFault::Refused(refusal) => write!(f, "{}", Reported(refusal)),
            OfferFault::Memory => write!(f, "out of memory"),
        }
    }
}

impl Error for OfferFault {}
