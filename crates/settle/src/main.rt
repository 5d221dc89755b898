// Settles an energy offer: reads it as text on standard input, prices it, and prints the prices.

#![tactic(auto)]

use quotes::{price_offer, read_offer};
use reports::{DispatchLines, OfferLines, PointLines};
use std::process::ExitCode;

// Nothing is printed until the whole offer is priced.
fn settle(rt: &HostRuntime) -> anyhow::Result<()> {
    let heap = rt.alloc();
    let mut lines = Vec::new(heap);
    for line in rt.lines(heap) {
        lines.push(line?)?;
    }
    let offer = read_offer(heap, lines.as_slice())?;
    let quote = price_offer(heap, &offer)?;
    let offered = OfferLines {
        name: "offer",
        offer: &offer,
    };
    let priced = PointLines(&quote);
    let run = DispatchLines(&quote);
    print!(rt; "{offered}{priced}{run}")?;
    Ok(())
}

// Each program has its own: a library function of it would be public, and so state its whole outcome, which is what it printed.
fn main(rt: HostRuntime) -> ExitCode {
    match settle(&rt) {
        Ok(()) => ExitCode::SUCCESS,
        Err(fault) => {
            let _ = eprintln!(rt; "{fault}");
            ExitCode::FAILURE
        }
    }
}
