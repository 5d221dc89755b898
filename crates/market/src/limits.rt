// The limits of the fields of a record, and the check that walks them.

ghost use Rattle.std.specs.Prelude.{◌≡◌, OnOk};
ghost use Rattle.market.specs.Curves.{checked};
ghost use Rattle.market.specs.Limits.{AllAdmitted, admitted, field_refusal};

use super::refusal::ProcessRefusal;
use offers::{HIGHEST_PRICE, LOWEST_PRICE};

// The lowest and the highest number that a field may hold.
#[derive(Clone, Copy, Debug, PartialEq, Eq)]
pub struct Limits {
    pub lowest: i64,
    pub highest: i64,
}

// Power and its tolerance, in tenths.
const POWER: Limits = Limits {
    lowest: 0,
    highest: 10_000,
};

// In cents per MWh.
const PRICE: Limits = Limits {
    lowest: LOWEST_PRICE,
    highest: HIGHEST_PRICE,
};

// The offer for running at no load, in cents an hour.
const NO_LOAD: Limits = Limits {
    lowest: 0,
    highest: 10_000_000,
};

// Cost or revenue of operating reserve, in ticks an interval.
const RESERVE: Limits = Limits {
    lowest: 0,
    highest: 400_000_000,
};

// In ticks an interval.
const OTHER_REVENUE: Limits = Limits {
    lowest: -500_000_000,
    highest: 500_000_000,
};

// 0 for no, 1 for yes.
const FLAG: Limits = Limits {
    lowest: 0,
    highest: 1,
};

// The rows of a Day-Ahead record.
pub const DAY_AHEAD_LIMITS: [Limits; 5] = [POWER, PRICE, NO_LOAD, RESERVE, RESERVE];

// The rows of a RUC record. Its maximum also may not be below its commitment minimum.
pub const RUC_LIMITS: [Limits; 11] = [
    POWER,
    POWER,
    POWER,
    POWER,
    POWER,
    POWER,
    PRICE,
    NO_LOAD,
    FLAG,
    OTHER_REVENUE,
    RESERVE,
];

impl Limits {
    // Whether a number lies within the limits.
    pub fn admits(&self, number: i64) -> bool
        ensures { result ≡ admitted self.now number }
    {
        self.lowest <= number && number <= self.highest
    }
}

// The first field outside its row is refused.
pub(crate) fn check_fields<const N: usize>(
    fields: [i64; N],
    limits: [Limits; N],
) -> Result<(), ProcessRefusal>
    ensures value { result ≡ checked (field_refusal 1 limits.entry fields.entry) }
    ensures admitted { OnOk result (AllAdmitted limits.entry fields.entry) }
{
    let outside = limits
        .iter()
        .zip(fields.iter())
        .position(|(row, number)| !row.admits(*number));
    match outside {
        Some(i) => Err(ProcessRefusal::FieldOutsideLimits(i as u64 + 1)),
        None => Ok(()),
    }
}
