//! The first month of a market with one station and one licensee, closed and printed.
#![tactic(auto)]

use sheet::text_of;
use worked_cases::first_month;

/// The number that the house's pay orders would bear.
const SERIAL: u64 = 1;

fn main(rt: HostRuntime) -> anyhow::Result<()> {
    let month = first_month(SERIAL);
    let text = text_of(&month.sheet);
    print!(rt; "{text}")?;
    Ok(())
}
