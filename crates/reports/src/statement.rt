// The lines of a statement.

use market::{Amounts, ProcessRefusal};
use offers::Reported;
use statements::{RucStatement, Statement};
use std::fmt;

// The answers to the records that a unit asks about, in ticks. A refusal of a record is an answer too.
#[derive(Clone, Copy)]
pub struct StatementLines(pub Statement);

#[derive(Clone, Copy)]
struct AmountsLine(Amounts);

#[derive(Clone, Copy)]
struct HourLines(Result<Amounts, ProcessRefusal>);

#[derive(Clone, Copy)]
struct IntervalLines(Result<RucStatement, ProcessRefusal>);

impl fmt::Display for AmountsLine {
    fn fmt<W: fmt::Write>(&self, f: &mut fmt::Formatter<W>) -> fmt::Result {
        let Amounts {
            cost,
            revenue,
            disallowed,
        } = self.0;
        writeln!(
            f,
            "  cost {cost}, revenue {revenue}, disallowed {disallowed}"
        )
    }
}

impl fmt::Display for HourLines {
    fn fmt<W: fmt::Write>(&self, f: &mut fmt::Formatter<W>) -> fmt::Result {
        writeln!(f, "Day-Ahead hour (ticks, 1/120 cent)")?;
        match self.0 {
            Ok(amounts) => write!(f, "{}", AmountsLine(amounts)),
            Err(refusal) => writeln!(f, "  {}", Reported(refusal)),
        }
    }
}

impl fmt::Display for IntervalLines {
    fn fmt<W: fmt::Write>(&self, f: &mut fmt::Formatter<W>) -> fmt::Result {
        writeln!(f, "RUC interval (ticks, 1/120 cent)")?;
        match self.0 {
            Ok(
                RucStatement {
                    amounts,
                    economic_point,
                },
            ) => {
                write!(f, "{}", AmountsLine(amounts))?;
                writeln!(f, "  economic operating point {economic_point} tenths")
            }
            Err(refusal) => writeln!(f, "  {}", Reported(refusal)),
        }
    }
}

impl fmt::Display for StatementLines {
    fn fmt<W: fmt::Write>(&self, f: &mut fmt::Formatter<W>) -> fmt::Result {
        if let Some(hour) = self.0.day_ahead {
            write!(f, "{}", HourLines(hour))?;
        }
        if let Some(interval) = self.0.ruc {
            write!(f, "{}", IntervalLines(interval))?;
        }
        Ok(())
    }
}
