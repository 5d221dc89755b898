// The refusals of a market process.

ghost use Rattle.std.specs.Prelude.{Some};
ghost use Rattle.market.specs.Refusals.{process_told, sentence};

use offers::{Layer, Refusal};
use std::fmt;

// Why a record was not settled. Fields go by their numbers, from 1, as the place of a refusal does; the tenth is the one that
// was asked of a curve.
#[derive(Clone, Copy, Debug, PartialEq, Eq)]
pub enum ProcessRefusal {
    FieldOutsideLimits(u64),
    NoSuchTenth(u64),
}

impl Refusal for ProcessRefusal {
    ghost told = { process_told };

    fn number(&self) -> u8 {
        match *self {
            ProcessRefusal::FieldOutsideLimits(_) => 14,
            ProcessRefusal::NoSuchTenth(_) => 13,
        }
    }

    fn layer(&self) -> Layer {
        match *self {
            ProcessRefusal::FieldOutsideLimits(_) => Layer::Process,
            ProcessRefusal::NoSuchTenth(_) => Layer::Curve,
        }
    }

    // The field or the tenth at fault.
    fn place(&self) -> u64 {
        match *self {
            ProcessRefusal::FieldOutsideLimits(field) => field,
            ProcessRefusal::NoSuchTenth(tenth) => tenth,
        }
    }
}

impl fmt::Display for ProcessRefusal {
    ghost output = { λ refusal. Some (sentence refusal) };

    fn fmt<W: fmt::Write>(&self, f: &mut fmt::Formatter<W>) -> fmt::Result {
        match *self {
            ProcessRefusal::FieldOutsideLimits(field) => write!(
                f,
                "field {field} of the record is outside its limits"
            ),
            ProcessRefusal::NoSuchTenth(tenth) => write!(f, "the curve has no tenth {tenth}"),
        }
    }
}
