// Settles a generating unit: reads it as text on standard input, and prints its offers with their prices and its statement.

#![tactic(auto)]

mod report;

use quotes::{price_offer, read_unit};
use report::Report;
use statements::settle_unit;
use std::process::ExitCode;

// Nothing is printed until all of it is worked out.
fn settle(rt: &HostRuntime) -> anyhow::Result<()> {
    let heap = rt.alloc();
    let mut lines = Vec::new(heap);
    for line in rt.lines(heap) {
        lines.push(line?)?;
    }
    let unit = read_unit(heap, lines.as_slice())?;
    let committed = price_offer(heap, &unit.committed)?;
    let current = price_offer(heap, unit.current_offer())?;
    let statement = settle_unit(heap, &unit)?;
    rt.print(Report {
        unit: &unit,
        committed: &committed,
        current: &current,
        statement,
    })?;
    Ok(())
}

// Each program has its own: a library function of it would be public, and so state its whole outcome, which is what it printed.
fn main(rt: HostRuntime) -> ExitCode {
    match settle(&rt) {
        Ok(()) => ExitCode::SUCCESS,
        Err(fault) => {
            let _ = eprintln!(rt; "{fault}");
            ExitCode::FAILURE
        }
    }
}
