// What a unit is told.

use market::{Amounts, ProcessRefusal};

// The amounts of an interval, and its economic operating point in tenths.
#[derive(Clone, Copy, Debug, PartialEq, Eq)]
pub struct RucStatement {
    pub amounts: Amounts,
    pub economic_point: u64,
}

// The answer to each record that a unit asks about.
#[derive(Clone, Copy, Debug, PartialEq, Eq)]
pub struct Statement {
    pub day_ahead: Option<Result<Amounts, ProcessRefusal>>,
    pub ruc: Option<Result<RucStatement, ProcessRefusal>>,
}
