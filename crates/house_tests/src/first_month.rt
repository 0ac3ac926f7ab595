//! The first month: metered, delivered, closed and paid.
use crate::market::{checked_answers, sent, sheet_at, taken, tariff, year};
use crate::reply::Reply;
use accounts::Sheet;
use history::{Call, Named, Spending};
use std::process::Abort;
use std::test::Fail;

/// What the sheet says of E2, and what licensee 1 is billed.
fn check_sheet(rt: &impl Abort, sheet: &Sheet) -> Result<(), Fail> {
    assert_eq!(rt; (sheet.month, sheet.margin), (1, 0));
    let second = sheet.heads[4];
    assert_eq!(rt; (second.balance, second.carry), (-140_011, 11));
    let billed = sheet.licensees[0].ok_or("licensee 1 has no bill")?;
    assert_eq!(rt; (billed.bill, billed.fraction), (618, 7_630));
    Ok(())
}

#[test]
fn a_month_is_closed_and_its_station_paid(rt: HostRuntime) -> Result<(), Fail> {
    let first = Named::Drawn(1);
    let list = [
        (year(), Reply::Accepted),
        (tariff(), Reply::Accepted),
        (Call::Meter(sent()), Reply::Metered(5_500_000)),
        (Call::Deliver(taken()), Reply::Accepted),
        (Call::closing(1, 1), Reply::Closed),
        (Call::Draw(1), Reply::Drawn(1, 550)),
        (Call::Present(Spending::Release, first), Reply::Paid(1, 550)),
        (Call::Present(Spending::Hold, first), Reply::Absent),
    ];
    let answers = checked_answers(&rt, rt.alloc(), &list)?;
    check_sheet(&rt, sheet_at(&answers, 4).ok_or("the month is not closed")?)
}
