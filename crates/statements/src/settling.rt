// Settling the records of a unit: the curve of the offer at commitment first, then that of the current offer, then the records.

ghost use Rattle.std.specs.Prelude.{◌≡◌};
ghost use Rattle.offers.specs.Answers.{bind, then};
ghost use Rattle.quotes.specs.Answers.{Answers, as_refused};
ghost use Rattle.quotes.specs.Units.{unit_asked};
ghost use Rattle.statements.specs.Statements.{ruc_stated, settled_on, statement_on, unit_settled};

use super::statement::{RucStatement, Statement};
use market::{DayAhead, MarketProcess, ProcessRefusal, Ruc, RucRecord};
use offers::OfferCurve;
use quotes::{OfferFault, PiledCurve, Unit, block_curve};
use std::alloc::Global;

fn ruc_stated<C: OfferCurve, N: OfferCurve>(
    process: &Ruc<C, N>,
    step: &RucRecord,
) -> Result<RucStatement, ProcessRefusal>
    ensures { result ≡ ruc_stated (C.OfferCurve.prices process.now.committed) (N.OfferCurve.prices process.now.current) step.now }
{
    Ok(RucStatement {
        amounts: process.settle(step)?,
        economic_point: process.economic_point(step)?,
    })
}

// The statement by the curve at commitment and the current one.
fn statement_on<C: OfferCurve + Drop, N: OfferCurve + Drop>(
    committed: C,
    current: N,
    unit: &Unit,
) -> Statement
    ensures { result ≡ statement_on (C.OfferCurve.prices committed) (unit_asked unit.now) (N.OfferCurve.prices current) }
{
    let hour = DayAhead { curve: committed };
    let day_ahead = unit.day_ahead.map(|step| hour.settle(&step));
    let interval = Ruc {
        committed: hour.curve,
        current,
    };
    Statement {
        day_ahead,
        ruc: unit.ruc.map(|step| ruc_stated(&interval, &step)),
    }
}

// The curve at commitment stands: makes that of the current offer.
fn settled_on<C: OfferCurve + Drop>(
    heap: Global,
    committed: C,
    unit: &Unit,
) -> Result<Statement, OfferFault>
    ensures { Answers (λ x. x) result (as_refused (settled_on (unit_asked unit.now) (C.prices committed))) }
{
    let offer = unit.current_offer();
    let current = PiledCurve::new(block_curve(heap, offer)?, offer.pile)?;
    Ok(statement_on(committed, current, unit))
}

// The answer to each record of a unit, or the refusal of its offer at commitment, else of its current offer.
pub fn settle_unit(heap: Global, unit: &Unit) -> Result<Statement, OfferFault>
    ensures { Answers (λ x. x) result (as_refused (unit_settled (unit_asked unit.now))) }
{
    let offer = &unit.committed;
    let committed = PiledCurve::new(block_curve(heap, offer)?, offer.pile)?;
    settled_on(heap, committed, unit)
}
