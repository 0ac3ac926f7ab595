//! A tour of agreements: banks written in a program and banks made from figures, and what each answers.
#![tactic(auto)]

use agreements::{Dues, Index, Quota, TwoPart};
use anyhow::anyhow;
use banks::{Bank, Beside, Listed, One, Unplaced};
use metering::{BLOCKS, Kind, Reading, make_reading};
use stations::{BaseFigures, Station, Stations};
use strangers::{Retainer, Reversed};

/// A generator's reading of 100 kW, with 20 kWh in block 2 and 30 kWh in block 12.
fn reading() -> anyhow::Result<Reading> {
    let mut blocks = [0; BLOCKS];
    blocks[2] = 20;
    blocks[12] = 30;
    let figures = metering::Figures {
        kind: u32::from(Kind::Generator),
        number: 1,
        demand: 100,
        blocks,
    };
    let mut reading = Reading::empty();
    make_reading(&figures, &mut reading).map_err(|refusal| anyhow!("{refusal}"))?;
    Ok(reading)
}

/// Books the reading at the place and tells what came of it.
fn tell<B: Bank>(rt: &HostRuntime, bank: &mut B, place: u8) -> anyhow::Result<()> {
    let mut table = Dues::empty();
    match bank.book_at(place, &reading()?, &mut table) {
        Ok(()) => {
            let capacity = table.capacity;
            let early = table.blocks[2];
            let noon = table.blocks[12];
            println!(rt; "place {place}: capacity {capacity}, block 2 {early}, block 12 {noon}")?;
        }
        Err(refusal) => println!(rt; "place {place}: {refusal}")?,
    }
    Ok(())
}

/// Four places of four types, told from the last to the first: a quota; two two-part agreements under two index layers each,
/// one with too few kW contracted and one at a millionth (its second factor, 0, counts as 1,000,000); and a stranger under one.
fn written_market(rt: &HostRuntime) -> anyhow::Result<()> {
    let quota = Quota::new(25, 60_000, 40_000)?;
    let scarce = TwoPart::new(99, 20_000, 50_000)?;
    let rich = TwoPart::new(100, 50_000_000_000, 50_000)?;
    let retainer = Retainer::new(70_000_000, 1)?;
    let left = Beside::new(
        One::new(quota),
        One::new(Index::new(Index::new(scarce, 2_000_000), 500_000)),
    );
    let right = Beside::new(
        One::new(Index::new(Index::new(rich, 1), 0)),
        One::new(Index::new(retainer, 1_500_000)),
    );
    let mut bank = Reversed::new(Beside::new(left, right));
    let places = bank.places();
    println!(rt; "{places} places")?;
    for place in [4, 4, 3, 2, 1, 1, 0, 5] {
        tell(rt, &mut bank, place)?;
    }
    Ok(())
}

/// One station more, under layers of 4,000,000 each.
fn place_one(
    rt: &HostRuntime,
    bank: &mut Stations,
    figures: BaseFigures,
    layers: usize,
) -> anyhow::Result<()> {
    let factors = vec![in rt.alloc(); 4_000_000; layers]?;
    let station = match Station::new(figures, factors) {
        Ok(station) => station,
        Err(refusal) => {
            let number = refusal.number();
            println!(rt; "not made: {number}")?;
            return Ok(());
        }
    };
    match bank.push(station) {
        Ok(()) => {}
        Err(Unplaced::Full(_)) => println!(rt; "every place is taken")?,
        Err(Unplaced::NoMemory(_)) => println!(rt; "no memory")?,
    }
    Ok(())
}

/// A market filed as figures: layers up to the ceiling, a figure over its limit, and a place too many.
fn filed_market(rt: &HostRuntime) -> anyhow::Result<()> {
    let mut bank: Stations = Listed::new(rt.alloc());
    let quota = BaseFigures::Quota {
        quota: 25,
        first: 60_000,
        second: 40_000,
    };
    let over = BaseFigures::Quota {
        quota: 1_000_000_000_000_001,
        first: 0,
        second: 0,
    };
    place_one(rt, &mut bank, over, 0)?;
    place_one(rt, &mut bank, quota, 17)?;
    for layers in 0..32 {
        place_one(rt, &mut bank, quota, layers)?;
    }
    let places = bank.places();
    println!(rt; "{places} places")?;
    for place in [1, 2, 2, 3, 32, 33] {
        tell(rt, &mut bank, place)?;
    }
    Ok(())
}

fn main(rt: HostRuntime) -> anyhow::Result<()> {
    written_market(&rt)?;
    filed_market(&rt)
}
