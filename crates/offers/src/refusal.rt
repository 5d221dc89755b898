// What every layer tells where it refuses, and the refusals of the curve layer.

ghost use Rattle.std.specs.Prelude.{◌≡◌, Some};
ghost use Rattle.offers.specs.Refusals.{Told, curve_told, sentence, layer_name, reported};

use std::fmt;

// The layers of the library that may refuse.
#[derive(Clone, Copy, Debug, PartialEq, Eq)]
pub enum Layer {
    Curve,
    Process,
    Book,
}

// Why a curve was not made, or a question to one not answered. Blocks and tenths count from 1.
#[derive(Clone, Copy, Debug, PartialEq, Eq)]
pub enum CurveRefusal {
    BlockCount,
    EmptyBlock(u64),
    TooWide(u64),
    PriceOutOfRange(u64),
    CapOutOfRange,
    AdderOutOfRange,
    PriceFalls(u64),
    NoSuchTenth(u64),
}

// What a refusal tells, whichever layer it is of.
pub trait Refusal {
    ghost told: { Self → Told };

    // The number in the table of refusals.
    fn number(&self) -> u8
        ensures { result ≡ (told self.now).number };

    fn layer(&self) -> Layer
        ensures { result ≡ (told self.now).layer };

    // What is at fault, by its number; 0 where there is but one.
    fn place(&self) -> u64
        ensures { result ≡ (told self.now).place };
}

impl Refusal for CurveRefusal {
    ghost told = { curve_told };

    fn number(&self) -> u8 {
        match *self {
            CurveRefusal::BlockCount | CurveRefusal::EmptyBlock(_) | CurveRefusal::TooWide(_) => 10,
            CurveRefusal::PriceOutOfRange(_)
            | CurveRefusal::CapOutOfRange
            | CurveRefusal::AdderOutOfRange => 11,
            CurveRefusal::PriceFalls(_) => 12,
            CurveRefusal::NoSuchTenth(_) => 13,
        }
    }

    fn layer(&self) -> Layer {
        Layer::Curve
    }

    // The block or the tenth at fault; 0 for a number of blocks, a cap or an adder.
    fn place(&self) -> u64 {
        match *self {
            CurveRefusal::BlockCount
            | CurveRefusal::CapOutOfRange
            | CurveRefusal::AdderOutOfRange => 0,
            CurveRefusal::EmptyBlock(block) | CurveRefusal::TooWide(block) => block,
            CurveRefusal::PriceOutOfRange(block) | CurveRefusal::PriceFalls(block) => block,
            CurveRefusal::NoSuchTenth(tenth) => tenth,
        }
    }
}

impl fmt::Display for Layer {
    ghost output = { λ layer. Some (layer_name layer) };

    fn fmt<W: fmt::Write>(&self, f: &mut fmt::Formatter<W>) -> fmt::Result {
        match *self {
            Self::Curve => write!(f, "curve"),
            Self::Process => write!(f, "process"),
            Self::Book => write!(f, "book"),
        }
    }
}

impl fmt::Display for CurveRefusal {
    ghost output = { λ refusal. Some (sentence refusal) };

    fn fmt<W: fmt::Write>(&self, f: &mut fmt::Formatter<W>) -> fmt::Result {
        match *self {
            CurveRefusal::BlockCount => write!(f, "an offer has 1 to 10 blocks (place 0)"),
            CurveRefusal::EmptyBlock(block) => write!(f, "block {block} has no tenths"),
            CurveRefusal::TooWide(block) => write!(
                f,
                "with block {block} the widths pass 10000 tenths"
            ),
            CurveRefusal::PriceOutOfRange(block) => {
                write!(
                    f,
                    "the price of block {block} is not from -100000 to 100000"
                )
            }
            CurveRefusal::CapOutOfRange => write!(
                f,
                "the limit of the cap is not from -100000 to 100000 (place 0)"
            ),
            CurveRefusal::AdderOutOfRange => write!(
                f,
                "the adder takes a price out of -100000 to 100000 (place 0)"
            ),
            CurveRefusal::PriceFalls(block) => {
                write!(
                    f,
                    "the price of block {block} is below that of the block before"
                )
            }
            CurveRefusal::NoSuchTenth(tenth) => write!(f, "the curve has no tenth {tenth}"),
        }
    }
}

// A refusal as it is reported: its number, its layer and its place, and then its sentence.
#[derive(Clone, Copy, Drop)]
pub struct Reported<R>(pub R);

impl<R: Refusal + fmt::Display> fmt::Display for Reported<R> {
    ghost output = { λ r. reported (R.Refusal.told r.0) (R.Display.output r.0) };

    fn fmt<W: fmt::Write>(&self, f: &mut fmt::Formatter<W>) -> fmt::Result {
        let refusal = &self.0;
        let number = refusal.number();
        let layer = refusal.layer();
        let place = refusal.place();
        write!(f, "refused {number} {layer} {place}: {refusal}")
    }
}
