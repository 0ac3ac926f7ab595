//! A market with one station, of 100 kW at 20,000 grains and 50,000 a kWh.
use agreements::TwoPart;
use anyhow::anyhow;
use banks::One;
use house::House;
use ledger::Refusal;
use methodology::ThreeIntervals;
use worked_figures::{agreement, sent, tariff, year};

/// A house over this market.
pub type FirstHouse = House<One<TwoPart>, ThreeIntervals>;

/// Files a year and a tariff, and takes the reading: 5,500,000 grains are due.
fn meter_first(house: &mut FirstHouse) -> Result<u64, Refusal> {
    house.year(&year())?;
    house.tariff(&tariff())?;
    house.meter(&sent())
}

/// A house in its first month, with the reading taken. Its orders bear the serial.
pub fn metered_house(serial: u64) -> anyhow::Result<FirstHouse> {
    let mut house: FirstHouse = House::new(One::new(agreement()), ThreeIntervals, serial);
    meter_first(&mut house).map_err(|_| anyhow!("the house refused a call"))?;
    Ok(house)
}
