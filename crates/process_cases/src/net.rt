// Code over any process, proved once against the interface.

ghost use Rattle.std.specs.Prelude.{◌≡◌};
ghost use Rattle.offers.specs.Answers.{then};
ghost use Rattle.process_cases.specs.Metering.{Moderate, net_of};

use market::{Amounts, MarketProcess, ProcessRefusal};

fn net(amounts: Amounts) -> i64
    requires { Moderate amounts }
    ensures { result ≡ net_of amounts }
{
    let loss = amounts.cost - amounts.revenue;
    loss - amounts.disallowed
}

// What a step costs beyond what it earns and what is disallowed, in ticks.
pub fn net_of<P: MarketProcess>(process: &P, step: &P::Record) -> Result<i64, ProcessRefusal>
    ensures { result ≡ then (P.meaning process.now step.now) net_of }
{
    let amounts = process.settle(step)?;
    Ok(net(amounts))
}
