//! settle: reads an operator's journal, performs its calls and prints what came of each.
#![tactic(auto)]

mod call_list;
mod command;
mod failure;
mod outcome;
mod source;

use crate::call_list::CallList;
use crate::command::{Command, USAGE};
use crate::failure::Failure;
use crate::outcome::Outcome;
use crate::source::Source;
use banks::Bank;
use history::NewHouse;
use journal::{Journal, Market};
use methodology::{Methodology, ThreeIntervals, TwoIntervals};
use stations::Stations;
use std::env;
use std::process::ExitCode;
use words::Counted;

fn main(rt: HostRuntime) -> ExitCode {
    match start(&rt) {
        Ok(()) => ExitCode::SUCCESS,
        Err(failure) => {
            failure.tell(&rt);
            ExitCode::FAILURE
        }
    }
}

fn start(rt: &HostRuntime) -> Result<(), Failure> {
    let mut args = env::args(rt)?;
    let _ = args.next();
    let words: Vec<String> = args.collect(rt.alloc())?;
    match Command::of(words.as_slice()) {
        Some(Command::Run(path)) => run(rt, &Source::read(rt, path)?),
        Some(Command::Check(path)) => check(rt, &Source::read(rt, path)?),
        Some(Command::Help) => {
            print!(rt; "{USAGE}")?;
            Ok(())
        }
        None => {
            eprint!(rt; "{USAGE}")?;
            Err(Failure::Told)
        }
    }
}

/// Performs a journal's calls and prints what came of each. The whole journal is read and its meter files are opened
/// before the first call.
fn run(rt: &HostRuntime, source: &Source<'_>) -> Result<(), Failure> {
    let Journal {
        market,
        serial,
        stations,
        entries,
    } = source.journal(rt)?;
    let list = source.open_all(rt, &entries)?;
    match market {
        Market::Three => perform_list(rt, ThreeIntervals, stations, serial, &list),
        Market::Two => perform_list(rt, TwoIntervals, stations, serial, &list),
    }
}

/// Performs the calls, prints what came of them, and has the orders that are still in hand held.
fn perform_list<M: Methodology + Drop>(
    rt: &HostRuntime,
    methodology: M,
    stations: Stations,
    serial: u64,
    list: &CallList,
) -> Result<(), Failure> {
    let places = stations.places();
    let house = NewHouse {
        bank: stations,
        methodology,
        serial,
    };
    let performance = house.perform_alone(rt.alloc(), &list.calls)?;
    let outcome = Outcome {
        list,
        performance: &performance,
        places,
    };
    let printed = outcome.print(rt);
    let (_house, _answers) = performance.hold_all();
    printed
}

/// Says whether a journal can be read and its meter files opened. No call is performed.
fn check(rt: &HostRuntime, source: &Source<'_>) -> Result<(), Failure> {
    let journal = source.journal(rt)?;
    let list = source.open_all(rt, &journal.entries)?;
    let stations = Counted {
        count: usize::from(journal.stations.places()),
        noun: "station",
    };
    let calls = Counted {
        count: list.entries.len(),
        noun: "call",
    };
    let path = source.path;
    println!(rt; "{path}: {stations}, {calls}")?;
    Ok(())
}
