//! The calls of the quarter, those that are refused among them.
use crate::market::{filing, sent, taken};
use history::{Call, Named, Spending};
use worked_figures::year;

fn release(which: Named) -> Call {
    Call::Present(Spending::Release, which)
}

fn hold(which: Named) -> Call {
    Call::Present(Spending::Hold, which)
}

/// Adds the calls with which the year begins. A tariff comes too early, one has a rate over its limit, and a reading
/// comes before a month is open.
fn begin(calls: &mut Vec<Call>) -> anyhow::Result<()> {
    let reading = sent(1, 100, [20, 30, 20])?;
    calls.push(Call::Tariff(filing(486)))?;
    calls.push(Call::Year(year()))?;
    calls.push(Call::Tariff(filing(10_000_000_000_000)))?;
    calls.push(Call::Meter(reading))?;
    calls.push(Call::Tariff(filing(486)))?;
    Ok(())
}

/// Adds the first month's calls: a place that is read twice, one that is not there, a licensee that delivers twice, a
/// wrong count, and an order that is paid and then no longer in hand.
fn first(calls: &mut Vec<Call>) -> anyhow::Result<()> {
    calls.push(Call::Meter(sent(1, 100, [20, 30, 20])?))?;
    calls.push(Call::Meter(sent(1, 100, [20, 30, 20])?))?;
    calls.push(Call::Meter(sent(3, 10, [5, 5, 5])?))?;
    calls.push(Call::Meter(sent(2, 40, [20, 30, 10])?))?;
    calls.push(Call::Deliver(taken(1, 90, [18, 28, 19])?))?;
    calls.push(Call::closing(2, 2))?;
    calls.push(Call::Deliver(taken(2, 50, [15, 25, 8])?))?;
    calls.push(Call::Deliver(taken(2, 50, [15, 25, 8])?))?;
    calls.push(Call::closing(2, 2))?;
    calls.push(Call::Draw(1))?;
    calls.push(release(Named::Drawn(1)))?;
    calls.push(release(Named::Drawn(1)))?;
    Ok(())
}

/// Adds the second month's calls: more than the contracted kW, an order that is put back, and two orders of another
/// house, of which one comes back and one is not there.
fn second(calls: &mut Vec<Call>) -> anyhow::Result<()> {
    calls.push(Call::Meter(sent(1, 101, [10, 40, 20])?))?;
    calls.push(Call::Meter(sent(1, 80, [10, 40, 20])?))?;
    calls.push(Call::Meter(sent(2, 40, [12, 20, 9])?))?;
    calls.push(Call::Deliver(taken(1, 70, [19, 55, 27])?))?;
    calls.push(Call::closing(2, 1))?;
    calls.push(Call::Draw(2))?;
    calls.push(hold(Named::Drawn(2)))?;
    calls.push(release(Named::Other(1)))?;
    calls.push(hold(Named::Other(2)))?;
    Ok(())
}

/// Adds the third month's calls: nobody takes energy in the evening until licensee 2 delivers, and one of two orders is
/// left in hand.
fn third(calls: &mut Vec<Call>) -> anyhow::Result<()> {
    calls.push(Call::Deliver(taken(1, 90, [25, 30, 0])?))?;
    calls.push(Call::Meter(sent(2, 45, [10, 15, 7])?))?;
    calls.push(Call::Meter(sent(1, 95, [18, 33, 16])?))?;
    calls.push(Call::closing(2, 1))?;
    calls.push(Call::Deliver(taken(2, 60, [2, 11, 21])?))?;
    calls.push(Call::closing(2, 2))?;
    calls.push(Call::Draw(1))?;
    calls.push(Call::Draw(2))?;
    calls.push(Call::Draw(2))?;
    calls.push(Call::Draw(0))?;
    calls.push(release(Named::Drawn(3)))?;
    calls.push(Call::Year(year()))?;
    Ok(())
}

/// Adds the whole quarter's calls.
pub fn quarter(calls: &mut Vec<Call>) -> anyhow::Result<()> {
    begin(calls)?;
    first(calls)?;
    second(calls)?;
    third(calls)
}

/// The calls after which one order is in hand.
pub fn up_to_an_order(calls: &mut Vec<Call>) -> anyhow::Result<()> {
    calls.push(Call::Year(year()))?;
    calls.push(Call::Tariff(filing(486)))?;
    calls.push(Call::Meter(sent(1, 100, [20, 30, 20])?))?;
    calls.push(Call::Draw(1))?;
    Ok(())
}
