//! The first quarter of a market with two stations and two licensees, performed as one list of calls and printed.
#![tactic(auto)]

mod calls;
mod market;

use crate::calls::{quarter, up_to_an_order};
use crate::market::{QuarterBank, stations};
use agreements::TwoPart;
use anyhow::anyhow;
use banks::{Bank, One};
use history::{Answer, Call, NewHouse, Performance, Unperformed};
use house::House;
use methodology::ThreeIntervals;
use printout::Printer;
use std::alloc::Global;
use worked_figures::agreement;

/// The numbers that the pay orders of the two houses bear.
const SERIAL: u64 = 1;

const OTHER_SERIAL: u64 = 2;

type Quarter = House<QuarterBank, ThreeIntervals>;

/// Another house, with an order that it drew in hand.
type Other = Performance<One<TwoPart>, ThreeIntervals>;

/// Prints what stands at each place, grains.
fn print_places(rt: &HostRuntime, house: &Quarter, places: u8) -> anyhow::Result<()> {
    for place in 1..=places {
        let standing = house.ledger().till.money(place).standing;
        println!(rt; "place {place} standing {standing}")?;
    }
    Ok(())
}

/// Performs the quarter's calls, which present an order that another house has in hand. What is in hand at the end, at
/// either house, is held there.
fn perform_quarter(
    heap: Global,
    bank: QuarterBank,
    mut other: Other,
    calls: &[Call],
) -> Result<(Quarter, Vec<Answer>), Unperformed> {
    let house = NewHouse {
        bank,
        methodology: ThreeIntervals,
        serial: SERIAL,
    };
    let outcome = house.perform(heap, calls, &mut other.hand);
    let (_house, _answers) = other.hold_all();
    Ok(outcome?.hold_all())
}

fn run(rt: &HostRuntime) -> anyhow::Result<()> {
    let heap = rt.alloc();
    let mut calls = Vec::new(heap);
    quarter(&mut calls)?;
    let mut other_calls = Vec::new(heap);
    up_to_an_order(&mut other_calls)?;
    let bank = stations()?;
    let places = bank.places();
    let other_house = NewHouse {
        bank: One::new(agreement()),
        methodology: ThreeIntervals,
        serial: OTHER_SERIAL,
    };
    let other = other_house
        .perform_alone(heap, &other_calls)
        .map_err(|_| anyhow!("the other house's calls are not performed"))?;
    let performed = perform_quarter(heap, bank, other, &calls);
    let (house, answers) = performed.map_err(|_| anyhow!("the calls are not performed"))?;
    let mut printer = Printer::new();
    for (call, answer) in calls.iter().zip(answers.iter()) {
        printer.print(rt, call, answer)?;
    }
    print_places(rt, &house, places)
}

fn main(rt: HostRuntime) -> anyhow::Result<()> {
    run(&rt)
}
