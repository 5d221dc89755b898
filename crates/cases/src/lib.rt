// Amounts worked out by hand: proved of the rules, and executed.

#![tactic(auto)]

ghost use Rattle.std.specs.Prelude.{◌≡◌, true};
ghost use Rattle.cases.specs.Worked.{WorkedAmounts};

mod held;
mod laid;

pub use held::{Held, count_held};
pub use laid::price_laid_twice;

// The rules give the worked amounts.
fn work_out()
    ensures { WorkedAmounts }
{}

// The worked amounts follow from the rules: the contract is the theorem.
pub fn worked_amounts_hold() -> bool
    ensures amounts { WorkedAmounts }
    ensures answer { result ≡ true }
{
    work_out();
    true
}

#[cfg(test)]
mod block_tests;
#[cfg(test)]
mod pile_tests;
#[cfg(test)]
mod quote_tests;
#[cfg(test)]
mod support;
#[cfg(test)]
mod unit_tests;
