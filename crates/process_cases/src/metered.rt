// A process of another market: what a meter counted in three intervals.

ghost use Rattle.std.specs.Prelude.{◌≡◌};
ghost use Rattle.process_cases.specs.Metering.{metered_figures, metered_meaning};
ghost use Rattle.std.proofs.Common.{rules};

use market::{Amounts, MarketProcess, ProcessRefusal};

// Ticks an interval that the meter counted as spent and as earned.
#[derive(Clone, Copy)]
pub struct MeteredRecord {
    pub spent: i64,
    pub earned: i64,
}

#[derive(Clone, Copy)]
pub struct Metered;

impl MarketProcess for Metered {
    type Record = MeteredRecord;

    const NUMBER: u8 = 7;

    const LENGTH: u64 = 3;

    const TAKES_OVER: bool = false;

    const POT: u8 = 1;

    ghost NUMBER = { metered_figures.number };

    ghost LENGTH = { metered_figures.length };

    ghost TAKES_OVER = { metered_figures.takes_over };

    ghost POT = { metered_figures.pot };

    ghost meaning = { λ p x. metered_meaning x };

    ghost lawful = { Prim.search rules };

    ghost bounded = { Prim.search rules };

    fn settle(&self, step: &MeteredRecord) -> Result<Amounts, ProcessRefusal>
        ensures { result ≡ metered_meaning step.now }
    {
        if step.spent < 0 || step.spent > 2_000_000_000 {
            return Err(ProcessRefusal::FieldOutsideLimits(1));
        }
        if step.earned < 0 || step.earned > 2_000_000_000 {
            return Err(ProcessRefusal::FieldOutsideLimits(2));
        }
        Ok(Amounts {
            cost: 3 * step.spent,
            revenue: 3 * step.earned,
            disallowed: 0,
        })
    }
}
