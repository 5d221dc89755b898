// What a process tells of itself, and of one record.

// Cost, revenue and disallowed cost of one market step, in ticks: a tick is 1/120 cent.
#[derive(Clone, Copy, Debug, PartialEq, Eq)]
pub struct Amounts {
    pub cost: i64,
    pub revenue: i64,
    pub disallowed: i64,
}

// The fixed figures of a process: its number, how many intervals of five minutes a step of it lasts, whether it goes on
// counting for a start that another process counted, and the pot of its payments for system-wide reasons. Number and pot are
// those that clients know.
#[derive(Clone, Copy, Debug, PartialEq, Eq)]
pub struct Figures {
    pub number: u8,
    pub length: u64,
    pub takes_over: bool,
    pub pot: u8,
}
