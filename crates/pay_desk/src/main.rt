//! A pay desk: orders are drawn and paid, or put off, and one of another house is turned away. None of them can be lost.
#![tactic(auto)]

mod desk;
mod market;

use crate::desk::{Settled, settle_elsewhere, settle_one};
use crate::market::metered_house;
use anyhow::anyhow;
use ledger::Refusal;
use orders::Paid;

/// The serials of two houses.
const HERE: u64 = 1;

const THERE: u64 = 2;

/// The place of the station.
const PLACE: u8 = 1;

/// Says what a house has done with so many cents of a place.
fn tell(rt: &HostRuntime, serial: u64, done: &str, paid: Paid) -> anyhow::Result<()> {
    let Paid { place, cents } = paid;
    println!(rt; "house {serial}: {done} {cents} cents of place {place}")?;
    Ok(())
}

/// Says what became of an order that a house drew and presented at a desk. By then no order is in hand: a line that cannot
/// be printed loses none.
fn tell_settled(
    rt: &HostRuntime,
    desk: u64,
    owner: u64,
    answer: Result<Settled, Refusal>,
) -> anyhow::Result<()> {
    let settled = answer.map_err(|_| anyhow!("nothing was drawn"))?;
    let (Settled::Released(paid) | Settled::Held(paid) | Settled::TurnedAway(_, paid)) = settled;
    tell(rt, owner, "drew", paid)?;
    match settled {
        Settled::Released(_) => tell(rt, desk, "released", paid),
        Settled::Held(_) => tell(rt, owner, "held", paid),
        Settled::TurnedAway(number, _) => {
            println!(rt; "house {desk}: refusal {number}")?;
            tell(rt, owner, "held", paid)
        }
    }
}

fn run(rt: &HostRuntime) -> anyhow::Result<()> {
    let mut here = metered_house(HERE)?;
    let mut there = metered_house(THERE)?;
    tell_settled(rt, HERE, HERE, settle_one(&mut here, PLACE, 549))?;
    tell_settled(rt, HERE, HERE, settle_one(&mut here, PLACE, 550))?;
    tell_settled(
        rt,
        HERE,
        THERE,
        settle_elsewhere(&mut here, &mut there, PLACE),
    )
}

fn main(rt: HostRuntime) -> anyhow::Result<()> {
    run(&rt)
}
