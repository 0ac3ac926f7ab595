//! The money of a place that is not drawn for years.
use crate::market::{answers_of, check_replies, filing, metered, year};
use crate::reply::Reply;
use agreements::TwoPart;
use agreements::limits::CONTRACTED_LIMIT;
use arith::{CENT, DEMAND_RATE_LIMIT, ENERGY_RATE_LIMIT};
use banks::One;
use history::{Answer, Call, Named, Spending};
use ledger::Refusal;
use metering::{BLOCKS, DEMAND_LIMIT, ENERGY_LIMIT, Kind};
use std::alloc::{AllocError, Global};
use std::process::Abort;
use std::test::Fail;
use tariffs::{Filing, Row};

/// Dues at both prices' limits: 2,000,000 * 5 * 10^10 and 960,000,000 * 10^8 grains.
const DUES: u64 = 100_000_000_000_000_000 + 96_000_000_000_000_000;

/// What twenty months of them come to, cents.
const CENTS: u64 = 20 * DUES / CENT;

/// A tariff by which licensees pay just what is due: G at 5,000,000 cents over a peak of 1, and GE at 10^8.
fn even() -> Call {
    Call::Tariff(Filing {
        costs: Row::of(&[5_000_000, 0, 0]),
        peaks: 1,
        energy_cost: 10_000,
        sent: 1,
        factors: Row::of(&[0, 0, 0]),
        coefficients: Row::of(&[1_000, 1_000, 1_000]),
        ..filing()
    })
}

fn sent_most() -> Call {
    Call::Meter(metered(Kind::Generator, 1, DEMAND_LIMIT, [ENERGY_LIMIT; BLOCKS]))
}

fn taken_most() -> Call {
    Call::Deliver(metered(Kind::Licensee, 1, DEMAND_LIMIT, [ENERGY_LIMIT; BLOCKS]))
}

/// Closes so many months.
fn months(calls: &mut Vec<Call>, count: u8) -> Result<(), AllocError> {
    for _ in 0..count {
        calls.push(sent_most())?;
        calls.push(taken_most())?;
        calls.push(Call::closing(1, 1))?;
    }
    Ok(())
}

/// Twenty months in two years.
fn twenty_months(calls: &mut Vec<Call>) -> Result<(), AllocError> {
    for last in [6, 2] {
        calls.push(year())?;
        calls.push(even())?;
        months(calls, 6)?;
        calls.push(even())?;
        months(calls, last)?;
    }
    Ok(())
}

/// None of the first so many calls is refused.
fn check_accepted(rt: &impl Abort, answers: &[Answer], count: usize) {
    for (place, answer) in answers.iter().take(count).enumerate() {
        assert_eq!(rt; answer.refusal(), None, "at {place}");
    }
}

/// Twenty months of a station's dues are 3.92 * 10^18 grains, and one more would pass 4 * 10^18, drawn or not.
#[test]
fn a_place_holds_no_more_than_its_limit(rt: HostRuntime) -> Result<(), Fail> {
    let heap = rt.alloc();
    let mut calls = Vec::new(heap);
    twenty_months(&mut calls)?;
    assert_eq!(rt; calls.len(), 66);
    let list = [
        (sent_most(), Reply::Refused(Refusal::TooMuch)),
        (Call::Draw(1), Reply::Drawn(1, CENTS)),
        (sent_most(), Reply::Refused(Refusal::TooMuch)),
        (
            Call::Present(Spending::Release, Named::Drawn(1)),
            Reply::Paid(1, CENTS),
        ),
        (sent_most(), Reply::Metered(DUES)),
    ];
    for (call, _) in &list {
        calls.push(*call)?;
    }
    let agreement = TwoPart::new(CONTRACTED_LIMIT, DEMAND_RATE_LIMIT, ENERGY_RATE_LIMIT).unwrap();
    let answers = answers_of(heap, One::new(agreement), &calls)?;
    check_accepted(&rt, &answers, 66);
    check_replies(&rt, answers.get(66..).unwrap_or(&[]), &list);
    Ok(())
}
