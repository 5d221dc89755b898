// The interface of a market process.

ghost use Rattle.std.specs.Prelude.{◌≡◌, ℕ, Bool, Result};
ghost use Rattle.market.specs.declared.amounts.Amounts.{Amounts};
ghost use Rattle.market.specs.declared.amounts.Figures.{Figures};
ghost use Rattle.market.specs.declared.refusal.ProcessRefusal.{ProcessRefusal};
ghost use Rattle.market.specs.Laws.{figures_of, LawfulFigures, LawfulMeaning};

use super::amounts::{Amounts, Figures};
use super::refusal::ProcessRefusal;

// A process means, for each record of one market step, a refusal or three amounts. It has fixed figures, answers by its
// meaning, each time alike, and changes nothing.
pub trait MarketProcess {
    type Record;

    // Four constants and no struct of them: a process brings each figure under its own name.
    const NUMBER: u8;

    const LENGTH: u64;

    const TAKES_OVER: bool;

    const POT: u8;

    // The constants, as contracts name them.
    ghost NUMBER: { ℕ };

    ghost LENGTH: { ℕ };

    ghost TAKES_OVER: { Bool };

    ghost POT: { ℕ };

    ghost meaning: { Self → Self.Record → Result Amounts ProcessRefusal };

    // What a record costs, earns and is disallowed, or its refusal.
    fn settle(&self, step: &Self::Record) -> Result<Amounts, ProcessRefusal>
        ensures { result ≡ meaning self.now step.now };

    // The four constants as one value.
    final fn figures() -> Figures
        ensures { result ≡ figures_of NUMBER LENGTH TAKES_OVER POT }
    {
        Figures {
            number: Self::NUMBER,
            length: Self::LENGTH,
            takes_over: Self::TAKES_OVER,
            pot: Self::POT,
        }
    }

    ghost lawful: { LawfulFigures (figures_of NUMBER LENGTH TAKES_OVER POT) };

    ghost bounded: { (p : Self) (x : Self.Record) → LawfulMeaning (figures_of NUMBER LENGTH TAKES_OVER POT) (meaning p x) };
}
