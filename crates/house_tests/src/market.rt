//! A market with one station and one licensee, and the calls that are made of its house.
use crate::reply::Reply;
use accounts::Sheet;
use banks::{Bank, One};
use history::{Answer, Call, NewHouse};
use ledger::Refusal;
use metering::{BLOCKS, Figures, Kind, Reading, make_reading};
use methodology::ThreeIntervals;
use std::alloc::{AllocError, Global};
use std::process::Abort;
use std::test::Fail;
pub use worked_figures::{agreement, sent, taken, tariff as filing};

/// The number that the house's pay orders bear.
pub const SERIAL: u64 = 7;

/// What a meter measured in each block: kW, and kWh. Figures that make no reading give one with nothing in it.
pub fn metered(kind: Kind, number: u32, demand: u32, blocks: [u32; BLOCKS]) -> Reading {
    let figures = Figures {
        kind: u32::from(kind),
        number,
        demand,
        blocks,
    };
    let mut reading = Reading::empty();
    let _ = make_reading(&figures, &mut reading);
    reading
}

/// What a meter measured: kW, and kWh at 01:00, 06:00 and 19:00. Figures that make no reading give one with nothing in it.
pub fn reading_of(kind: Kind, number: u8, demand: u32, energies: [u32; 3]) -> Reading {
    worked_figures::measured(kind, number, demand, energies).unwrap_or(Reading::empty())
}

/// The same by a meter with number 1.
pub fn reading(kind: Kind, demand: u32, energies: [u32; 3]) -> Reading {
    reading_of(kind, 1, demand, energies)
}

/// The worked year.
pub fn year() -> Call {
    Call::Year(worked_figures::year())
}

/// The worked tariff.
pub fn tariff() -> Call {
    Call::Tariff(filing())
}

/// What is answered to the calls of a house over any bank. No order of another house is there, and what is still in hand at
/// the end is held.
pub fn answers_of<B: Bank + Drop>(
    heap: Global,
    bank: B,
    calls: &[Call],
) -> Result<Vec<Answer>, AllocError> {
    let house = NewHouse {
        bank,
        methodology: ThreeIntervals,
        serial: SERIAL,
    };
    Ok(house.perform_alone(heap, calls)?.hold_all().1)
}

/// The calls of a list in which each has its answer beside it.
pub fn calls_in(heap: Global, list: &[(Call, Reply)]) -> Result<Vec<Call>, AllocError> {
    let mut calls = Vec::new(heap);
    for (call, _) in list {
        calls.push(*call)?;
    }
    Ok(calls)
}

/// Sees that the answers are the ones beside the calls of a list.
pub fn check_replies(rt: &impl Abort, answers: &[Answer], list: &[(Call, Reply)]) {
    assert_eq!(rt; answers.len(), list.len());
    for (place, (answer, (_, reply))) in answers.iter().zip(list).enumerate() {
        assert_eq!(rt; Reply::from(answer), *reply, "at {place}");
    }
}

/// What is answered to the calls of a list, which is to be what stands beside them.
pub fn checked_answers_of<B: Bank + Drop>(
    rt: &impl Abort,
    heap: Global,
    bank: B,
    list: &[(Call, Reply)],
) -> Result<Vec<Answer>, Fail> {
    let calls = calls_in(heap, list)?;
    let answers = answers_of(heap, bank, &calls)?;
    check_replies(rt, &answers, list);
    Ok(answers)
}

/// The same of the market's own house.
pub fn checked_answers(
    rt: &impl Abort,
    heap: Global,
    list: &[(Call, Reply)],
) -> Result<Vec<Answer>, Fail> {
    checked_answers_of(rt, heap, One::new(agreement()), list)
}

/// Why the call with this place in the list was refused, if it was.
pub fn refusal_at(answers: &[Answer], place: usize) -> Option<Refusal> {
    answers.get(place)?.refusal()
}

/// The sheet that the call with this place in the list filled.
pub fn sheet_at(answers: &[Answer], place: usize) -> Option<&Sheet> {
    answers.get(place)?.sheet()
}
