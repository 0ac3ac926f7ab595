//! The market: its stations, and what meters measured and the operator files.
use agreements::{Index, Quota, TwoPart};
use anyhow::anyhow;
use banks::{Beside, One};
use metering::{Kind, Reading};
use tariffs::{Filing, Row};
use worked_figures::{agreement, measured, tariff};

/// Place 1 has a two-part agreement, place 2 a quota under an index layer.
pub type QuarterBank = Beside<One<TwoPart>, One<Index<Quota>>>;

/// 25 kWh at 60,000 grains each and all further ones at 40,000, and half as much again on all.
pub fn stations() -> anyhow::Result<QuarterBank> {
    let quota = Quota::new(25, 60_000, 40_000).map_err(|_| anyhow!("no quota"))?;
    let left = One::new(agreement());
    let right = One::new(Index::new(quota, 1_500_000));
    Ok(Beside::new(left, right))
}

/// What a meter measured: kW, and kWh by night, in the morning and in the evening.
fn reading(kind: Kind, number: u8, demand: u32, energies: [u32; 3]) -> anyhow::Result<Reading> {
    measured(kind, number, demand, energies).map_err(|_| anyhow!("these figures make no reading"))
}

/// What the station at a place sent in.
pub fn sent(place: u8, demand: u32, energies: [u32; 3]) -> anyhow::Result<Reading> {
    reading(Kind::Generator, place, demand, energies)
}

/// What a licensee took.
pub fn taken(number: u8, demand: u32, energies: [u32; 3]) -> anyhow::Result<Reading> {
    reading(Kind::Licensee, number, demand, energies)
}

/// The first tariff, with this cost of transmission.
pub fn filing(transmission: u64) -> Filing {
    let mut filing = tariff();
    filing.costs = Row::of(&[1_080, transmission, 49]);
    filing
}
