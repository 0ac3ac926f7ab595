//! Months that cannot be closed, and how each is mended.
ghost use Rattle.std.specs.Prelude.{◌<◌, ◌≤◌};
ghost use Rattle.arith.specs.Money.{energy_rate_limit};

use crate::market::{
    agreement, answers_of, checked_answers, checked_answers_of, filing, reading, reading_of,
    refusal_at, sent, sheet_at, tariff, year,
};
use crate::reply::Reply;
use accounts::BALANCE_LIMIT;
use agreements::TwoPart;
use agreements::limits::CONTRACTED_LIMIT;
use arith::{DEMAND_RATE_LIMIT, ENERGY_RATE_LIMIT};
use banks::{Beside, Listed, One};
use history::{Answer, Call};
use ledger::Refusal;
use metering::{DEMAND_LIMIT, Kind};
use std::alloc::{AllocError, Global};
use std::process::Abort;
use std::test::Fail;
use tariffs::{Filing, Row};

/// The highest balance, in size.
const BALANCE: i64 = BALANCE_LIMIT as i64;

/// An agreement whose capacity due may be 10^17 grains.
fn dear(energy_price: u64) -> TwoPart
    requires { energy_price ≤ energy_rate_limit }
{
    TwoPart::new(CONTRACTED_LIMIT, DEMAND_RATE_LIMIT, energy_price).unwrap()
}

/// Two more stations send in the kWh that are missing.
#[test]
fn no_more_is_delivered_than_was_sent(rt: HostRuntime) -> Result<(), Fail> {
    let delivery = reading(Kind::Licensee, 90, [18, 31, 22]);
    let second = reading_of(Kind::Generator, 2, 0, [0, 1, 1]);
    let third = reading_of(Kind::Generator, 3, 0, [0, 0, 1]);
    let list = [
        (year(), Reply::Accepted),
        (tariff(), Reply::Accepted),
        (Call::Meter(sent()), Reply::Metered(5_500_000)),
        (Call::Deliver(delivery), Reply::Accepted),
        (Call::closing(1, 1), Reply::Refused(Refusal::Supply(4))),
        (Call::Meter(second), Reply::Metered(100_000)),
        (Call::closing(2, 1), Reply::Refused(Refusal::Supply(5))),
        (Call::Meter(third), Reply::Metered(50_000)),
        (Call::closing(3, 1), Reply::Closed),
    ];
    let two = Beside::new(One::new(agreement()), One::new(agreement()));
    let bank = Beside::new(two, One::new(agreement()));
    checked_answers_of(&rt, rt.alloc(), bank, &list)?;
    Ok(())
}

/// 30 kWh were sent in at E1, and 14 delivered; a second licensee takes the kWh that makes them 15.
#[test]
fn twice_what_was_delivered_may_be_sent(rt: HostRuntime) -> Result<(), Fail> {
    let first = reading(Kind::Licensee, 90, [18, 14, 19]);
    let second = reading_of(Kind::Licensee, 2, 0, [0, 1, 0]);
    let list = [
        (year(), Reply::Accepted),
        (tariff(), Reply::Accepted),
        (Call::Meter(sent()), Reply::Metered(5_500_000)),
        (Call::Deliver(first), Reply::Accepted),
        (Call::closing(1, 1), Reply::Refused(Refusal::Supply(4))),
        (Call::Deliver(second), Reply::Accepted),
        (Call::closing(1, 2), Reply::Closed),
    ];
    checked_answers(&rt, rt.alloc(), &list)?;
    Ok(())
}

/// The actual rate of a head, on the sheet of the closing with this place in the list.
fn check_actual(
    rt: &impl Abort,
    answers: &[Answer],
    place: usize,
    head: usize,
    rate: u64,
) -> Result<(), Fail>
    requires { head < 6 }
{
    let sheet = sheet_at(answers, place).ok_or("the month is not closed")?;
    assert_eq!(rt; sheet.heads[head].actual, rate);
    Ok(())
}

/// 10^17 grains over a demand of 1 kW, then of 1,999,999 kW, and at last of 2,000,000 kW: 5 * 10^10 is the limit.
#[test]
fn a_demand_rate_keeps_its_limit(rt: HostRuntime) -> Result<(), Fail> {
    let station = reading(Kind::Generator, DEMAND_LIMIT, [20, 30, 20]);
    let first = reading(Kind::Licensee, 1, [18, 28, 19]);
    let second = reading_of(Kind::Licensee, 2, 1_999_998, [0, 0, 0]);
    let third = reading_of(Kind::Licensee, 3, 1, [0, 0, 0]);
    let list = [
        (year(), Reply::Accepted),
        (tariff(), Reply::Accepted),
        (
            Call::Meter(station),
            Reply::Metered(100_000_000_003_500_000),
        ),
        (Call::Deliver(first), Reply::Accepted),
        (
            Call::closing(1, 1),
            Reply::Refused(Refusal::RateOverLimit(1)),
        ),
        (Call::Deliver(second), Reply::Accepted),
        (
            Call::closing(1, 2),
            Reply::Refused(Refusal::RateOverLimit(1)),
        ),
        (Call::Deliver(third), Reply::Accepted),
        (Call::closing(1, 3), Reply::Closed),
    ];
    let answers = checked_answers_of(&rt, rt.alloc(), One::new(dear(50_000)), &list)?;
    check_actual(&rt, &answers, 8, 0, DEMAND_RATE_LIMIT)
}

/// A kWh is due 10^8 grains, the limit. Of those sent in all must be delivered.
#[test]
fn an_energy_rate_keeps_its_limit(rt: HostRuntime) -> Result<(), Fail> {
    let station = reading(Kind::Generator, 100, [20, 30, 20]);
    let first = reading(Kind::Licensee, 90, [20, 30, 19]);
    let second = reading_of(Kind::Licensee, 8, 0, [0, 0, 1]);
    let list = [
        (year(), Reply::Accepted),
        (tariff(), Reply::Accepted),
        (Call::Meter(station), Reply::Metered(7_002_000_000)),
        (Call::Deliver(first), Reply::Accepted),
        (
            Call::closing(1, 1),
            Reply::Refused(Refusal::RateOverLimit(5)),
        ),
        (Call::Deliver(second), Reply::Accepted),
        (Call::closing(1, 2), Reply::Closed),
    ];
    let bank = One::new(TwoPart::new(100, 20_000, ENERGY_RATE_LIMIT).unwrap());
    let answers = checked_answers_of(&rt, rt.alloc(), bank, &list)?;
    check_actual(&rt, &answers, 6, 4, ENERGY_RATE_LIMIT)
}

/// A first station that is paid for energy alone, and eight that are paid 10^17 grains for capacity alone.
fn nine_stations(heap: Global) -> Option<Listed<TwoPart>> {
    let mut bank = Listed::new(heap);
    let energy = TwoPart::new(100, 0, 50_000).unwrap();
    bank.push(energy).ok()?;
    for _ in 0..8 {
        bank.push(dear(0)).ok()?;
    }
    Some(bank)
}

/// A month in which the first station sends, and eight licensees show the most that a meter may.
fn greatest_demand(calls: &mut Vec<Call>) -> Result<(), AllocError> {
    calls.push(Call::Meter(sent()))?;
    calls.push(Call::Deliver(reading(Kind::Licensee, DEMAND_LIMIT, [18, 28, 19])))?;
    for number in 2..9 {
        calls.push(Call::Deliver(reading_of(Kind::Licensee, number, DEMAND_LIMIT, [0, 0, 0])))?;
    }
    calls.push(Call::closing(1, 8))?;
    Ok(())
}

/// Six months of it, in the last of which the other stations are read once it cannot be closed.
fn six_months(calls: &mut Vec<Call>) -> Result<(), AllocError> {
    calls.push(year())?;
    calls.push(Call::Tariff(Filing {
        costs: Row::of(&[100_000_000_000_000, 0, 0]),
        peaks: 20_000_000,
        ..filing()
    }))?;
    for _ in 0..6 {
        greatest_demand(calls)?;
    }
    for place in 2..10 {
        calls.push(Call::Meter(reading_of(Kind::Generator, place, DEMAND_LIMIT, [0, 0, 0])))?;
    }
    calls.push(Call::closing(9, 8))?;
    Ok(())
}

/// What the fifth month and the sixth come to.
fn check_months(rt: &impl Abort, answers: &[Answer]) -> Result<(), Fail> {
    let fifth = sheet_at(answers, 51).ok_or("month 5 is not closed")?;
    assert_eq!(rt; fifth.heads[0].balance, -BALANCE);
    assert_eq!(rt; refusal_at(answers, 61), Some(Refusal::BalancePast(1)));
    let sixth = sheet_at(answers, 70).ok_or("month 6 is not closed")?;
    let first = sixth.heads[0];
    assert_eq!(rt;
        (sixth.month, first.actual, first.balance),
        (6, DEMAND_RATE_LIMIT, -BALANCE)
    );
    Ok(())
}

/// G is published at 10,000 * 10^14 / 20,000,000 = 5 * 10^10, its limit. Eight licensees at 2,000,000 kW pay 8 * 10^17 a
/// month, for which no station has earned anything: after five months the balance is at its limit. In the sixth the
/// stations earn as much as is paid, once they are read.
#[test]
fn a_balance_keeps_its_limit(rt: HostRuntime) -> Result<(), Fail> {
    let heap = rt.alloc();
    let mut calls = Vec::new(heap);
    six_months(&mut calls)?;
    let bank = nine_stations(heap).ok_or("no bank")?;
    let answers = answers_of(heap, bank, &calls)?;
    check_months(&rt, &answers)
}
