// Cost and revenue of one interval by their parts: both processes put them together alike.

ghost use Rattle.std.specs.Prelude.{◌≡◌, ◌*ℤ◌};
ghost use Rattle.market.specs.Amounts.{interval_cost, interval_revenue};
ghost use Rattle.market.specs.Laws.{Within};
ghost use Rattle.market.specs.Parts.{Payable, Sellable};

// Ticks an interval of one cent an hour: 120 ticks a cent, 12 intervals an hour.
const NO_LOAD_TICKS: i64 = 10;

// Energy and reserve in ticks an interval, no-load in cents an hour, near enough to 0 to be added.
#[derive(Clone, Copy)]
pub(crate) struct CostParts {
    pub(crate) energy: i64,
    pub(crate) no_load: i64,
    pub(crate) reserve: i64,
    ghost payable: { Payable energy no_load reserve },
}

impl CostParts {
    // The cost, in ticks an interval.
    pub(crate) fn ticks(&self) -> i64
        ensures value { result ≡ interval_cost self.now.energy self.now.no_load self.now.reserve }
        ensures modest { Within 3500000000 result }
    {
        let no_load = NO_LOAD_TICKS * self.no_load;
        let running = self.energy + no_load;
        running + self.reserve
    }
}

// Power in tenths, its price in cents per MWh, and other revenue in ticks an interval, near enough to 0 to be multiplied and
// added.
#[derive(Clone, Copy)]
pub(crate) struct RevenueParts {
    pub(crate) power: i64,
    pub(crate) price: i64,
    pub(crate) other: i64,
    ghost sellable: { Sellable power price other },
}

impl RevenueParts {
    // Tenths at a price in cents per MWh are ticks an interval.
    fn sold(&self) -> i64
        ensures value { result ≡ self.now.power *ℤ self.now.price }
        ensures modest { Within 1000000000 result }
    {
        self.power * self.price
    }

    // The revenue, in ticks an interval.
    pub(crate) fn ticks(&self) -> i64
        ensures value { result ≡ interval_revenue self.now.power self.now.price self.now.other }
        ensures modest { Within 1500000000 result }
    {
        self.sold() + self.other
    }
}
