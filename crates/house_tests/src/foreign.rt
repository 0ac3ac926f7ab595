//! An order of another house: it comes back, stays where it was, and is held by the house that drew it.
ghost use Rattle.std.specs.Prelude.{◌≡◌};

use crate::market::{SERIAL, agreement, calls_in, check_replies, filing, sent, tariff, year};
use crate::reply::Reply;
use agreements::TwoPart;
use banks::One;
use history::{Answer, Call, Named, NewHouse, Orders, Spending, Unperformed};
use house::House;
use ledger::Refusal;
use methodology::ThreeIntervals;
use orders::PayOrder;
use std::alloc::Global;
use std::test::Fail;

/// The number that the other house's orders bear.
const OTHER: u64 = 8;

/// The other house.
type FirstHouse = House<One<TwoPart>, ThreeIntervals>;

/// The other house takes its first reading, for which 5,500,000 grains are due.
fn metered(house: &mut FirstHouse) -> Result<u64, Refusal> {
    house.year(&worked_figures::year())?;
    house.tariff(&filing())?;
    house.meter(&sent())
}

/// What is answered to the calls with the order beside them, as the first of the other houses' orders; and the order again.
fn answers_beside(
    heap: Global,
    order: PayOrder,
    calls: &[Call],
) -> (Result<Vec<Answer>, Unperformed>, PayOrder)
    ensures { result.1 ≡ order }
{
    let Ok(mut others) = Orders::with_room(heap, 1) else {
        return (Err(Unperformed::NoMemory), order);
    };
    others.add(order).unwrap();
    let house = NewHouse {
        bank: One::new(agreement()),
        methodology: ThreeIntervals,
        serial: SERIAL,
    };
    let outcome = house.perform(heap, calls, &mut others);
    let order = others.take_last().unwrap();
    others.end().unwrap();
    (outcome.map(|performance| performance.hold_all().1), order)
}

#[test]
fn an_order_of_another_house_comes_back(rt: HostRuntime) -> Result<(), Fail> {
    let release = Spending::Release;
    let hold = Spending::Hold;
    let list = [
        (year(), Reply::Accepted),
        (tariff(), Reply::Accepted),
        (Call::Meter(sent()), Reply::Metered(5_500_000)),
        (Call::Draw(1), Reply::Drawn(1, 550)),
        (Call::Present(release, Named::Other(1)), Reply::Returned),
        (Call::Present(hold, Named::Other(1)), Reply::Returned),
        (Call::Present(hold, Named::Other(2)), Reply::Absent),
        (Call::Present(release, Named::Drawn(1)), Reply::Paid(1, 550)),
    ];
    let calls = calls_in(rt.alloc(), &list)?;
    let mut other: FirstHouse = House::new(One::new(agreement()), ThreeIntervals, OTHER);
    let dues = metered(&mut other).map_err(|_| "the other house takes no reading")?;
    let order = other.draw(1).map_err(|_| "nothing stands at the place")?;
    let on_orders = other.ledger().till.money(1).on_orders;
    let (outcome, order) = answers_beside(rt.alloc(), order, &calls);
    other.hold(order).unwrap();
    check_replies(&rt, &outcome?, &list);
    let money = other.ledger().till.money(1);
    assert_eq!(rt;
        (dues, on_orders, money.on_orders, money.standing),
        (5_500_000, 550, 0, 5_500_000)
    );
    Ok(())
}
