//! A trade with a resting offer.

ghost use Rattle.offer_exchange.specs.Laws.{AreWithin};
ghost use Rattle.ledger_types.specs.Prices.{IsPriced};
ghost use Rattle.offer_exchange.specs.Calls.{AreBounds, IsExchange, bounds_of, amounts_of};

use crate::bounds::Bounds;
use crate::rounding::Rounding;
use crate::table::{exchanged, parts, wheat_stays};
use ledger_types::Price;

/// What a trade moves from the resting offer to the taker, and from the taker to the offer, and whether the offer has
/// wheat left that the taker can't take.
#[derive(Clone, Copy, PartialEq, Eq)]
pub struct Exchanged {
    pub wheat: i64,
    pub sheep: i64,
    pub wheat_stays: bool,
}

/// What a trade at a price moves within bounds of at least 0. The price is of sheep for wheat, and both of its parts
/// are at least 1.
pub fn exchange(price: Price, bounds: Bounds, rounding: Rounding) -> Exchanged
    requires priced { IsPriced price }
    requires bounds { AreBounds bounds }
    ensures value { IsExchange rounding price bounds result }
    ensures within { AreWithin (bounds_of bounds) (amounts_of rounding price bounds) }
{
    let (n, d) = parts(price);
    let moved = exchanged(rounding, n, d, bounds);
    Exchanged {
        wheat: moved.wheat as i64,
        sheep: moved.sheep as i64,
        wheat_stays: wheat_stays(n, d, bounds),
    }
}
