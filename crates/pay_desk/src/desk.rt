//! What a pay desk does with orders. Whoever has one in hand must see it released or held: each of these functions ends with
//! the order taken in by a house, or hands it back.
ghost use Rattle.std.specs.Prelude.{◌≡◌};
ghost use Rattle.pay_desk.specs.Houses.{PutsOff, PresentsAtDesk, Settles, Elsewhere};

use banks::Bank;
use house::House;
use ledger::Refusal;
use methodology::Methodology;
use orders::{Paid, PayOrder, Returned};

/// What became of an order's cents.
#[derive(Clone, Copy, PartialEq, Eq, Debug)]
pub enum Settled {
    /// They were paid.
    Released(Paid),
    /// They stand at the place again.
    Held(Paid),
    /// Another house refused them, with this number, and then its own house held them.
    TurnedAway(u8, Paid),
}

/// What an order pays.
fn paid_by(order: &PayOrder) -> Paid
    ensures { (result.place ≡ order.now.place) × (result.cents ≡ order.now.cents) }
{
    Paid {
        place: order.place(),
        cents: order.cents(),
    }
}

/// Puts an order off: its own house holds it. Another house's is handed back.
pub fn put_off<B: Bank, M: Methodology>(
    house: &mut House<B, M>,
    order: PayOrder,
) -> Result<Settled, Returned>
    ensures { PutsOff house.old order result house.new }
{
    let paid = paid_by(&order);
    house.hold(order)?;
    Ok(Settled::Held(paid))
}

/// Presents an order for payment at a desk. Where it comes back, its owner holds it; one that neither knows is handed back.
pub fn present<B: Bank, M: Methodology>(
    desk: &mut House<B, M>,
    owner: &mut House<B, M>,
    order: PayOrder,
) -> Result<Settled, Returned>
    ensures { PresentsAtDesk desk.old owner.old order result desk.new owner.new }
{
    let paid = paid_by(&order);
    match desk.release(order) {
        Ok(paid) => Ok(Settled::Released(paid)),
        Err(back) => {
            let number = back.number();
            let Returned { order } = back;
            owner.hold(order)?;
            Ok(Settled::TurnedAway(number, paid))
        }
    }
}

/// Draws an order on a place, and releases it if it is for so many cents at most; a greater one is put off.
pub fn settle_one<B: Bank, M: Methodology>(
    house: &mut House<B, M>,
    place: u8,
    most: u64,
) -> Result<Settled, Refusal>
    ensures { Settles most house.old place result house.new }
{
    let order = house.draw(place)?;
    let paid = paid_by(&order);
    if paid.cents <= most {
        house.release(order).unwrap();
        Ok(Settled::Released(paid))
    } else {
        house.hold(order).unwrap();
        Ok(Settled::Held(paid))
    }
}

/// Draws an order on its owner's place, and presents it at a desk.
pub fn settle_elsewhere<B: Bank, M: Methodology>(
    desk: &mut House<B, M>,
    owner: &mut House<B, M>,
    place: u8,
) -> Result<Settled, Refusal>
    ensures { Elsewhere desk.old owner.old place result desk.new owner.new }
{
    let order = owner.draw(place)?;
    Ok(present(desk, owner, order).unwrap())
}
