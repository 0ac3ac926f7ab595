//! Calls that are turned down, each for its own reason, and what goes on after them.
use crate::market::{checked_answers, reading, sent, taken, tariff, year};
use crate::reply::Reply;
use agreements::{Cause, Fault};
use history::{Call, Named, Spending};
use ledger::Refusal;
use metering::Kind;
use std::test::Fail;
use tariffs::Row;

#[test]
fn calls_come_in_the_order_of_the_year(rt: HostRuntime) -> Result<(), Fail> {
    let short = Row::of(&[1_000]);
    let list = [
        (tariff(), Reply::Refused(Refusal::NotNow)),
        (Call::Meter(sent()), Reply::Refused(Refusal::NoMonth)),
        (Call::Deliver(taken()), Reply::Refused(Refusal::NoMonth)),
        (Call::closing(0, 0), Reply::Refused(Refusal::NoMonth)),
        (Call::Year(short), Reply::Refused(Refusal::Misallowed)),
        (year(), Reply::Accepted),
        (year(), Reply::Refused(Refusal::NotNow)),
        (tariff(), Reply::Accepted),
        (tariff(), Reply::Refused(Refusal::NotNow)),
    ];
    checked_answers(&rt, rt.alloc(), &list)?;
    Ok(())
}

#[test]
fn a_month_takes_each_reading_once(rt: HostRuntime) -> Result<(), Fail> {
    let fault = Fault {
        cause: Cause::Contract,
        layer: 0,
    };
    let over = reading(Kind::Generator, 101, [20, 30, 20]);
    let list = [
        (year(), Reply::Accepted),
        (tariff(), Reply::Accepted),
        (Call::Meter(taken()), Reply::Refused(Refusal::WrongKind)),
        (Call::Deliver(sent()), Reply::Refused(Refusal::WrongKind)),
        (Call::Meter(over), Reply::Refused(Refusal::Agreement(fault))),
        (Call::Meter(sent()), Reply::Metered(5_500_000)),
        (Call::Meter(sent()), Reply::Refused(Refusal::Again)),
        (Call::closing(1, 1), Reply::Refused(Refusal::Counts)),
        (Call::closing(1, 0), Reply::Refused(Refusal::NoQuantity(1))),
        (Call::Deliver(taken()), Reply::Accepted),
        (Call::Deliver(taken()), Reply::Refused(Refusal::Again)),
        (Call::closing(1, 1), Reply::Closed),
    ];
    checked_answers(&rt, rt.alloc(), &list)?;
    Ok(())
}

#[test]
fn an_order_is_drawn_on_whole_cents_that_stand(rt: HostRuntime) -> Result<(), Fail> {
    let list = [
        (year(), Reply::Accepted),
        (tariff(), Reply::Accepted),
        (Call::Draw(0), Reply::Refused(Refusal::NoPlace)),
        (Call::Draw(1), Reply::Refused(Refusal::UnderACent)),
        (Call::Meter(sent()), Reply::Metered(5_500_000)),
        (Call::Draw(2), Reply::Refused(Refusal::NoPlace)),
        (Call::Draw(1), Reply::Drawn(1, 550)),
        (Call::Draw(1), Reply::Refused(Refusal::UnderACent)),
        (
            Call::Present(Spending::Hold, Named::Drawn(1)),
            Reply::Accepted,
        ),
        (Call::Draw(1), Reply::Drawn(1, 550)),
    ];
    checked_answers(&rt, rt.alloc(), &list)?;
    Ok(())
}
