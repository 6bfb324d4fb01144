//! Trades in numbers without a sign: no product of an amount and a part of a price needs 96 bits.

ghost use Rattle.std.specs.Prelude.{◌≡◌, ◌<◌, ◌^◌, pos, ◌≤ℤ◌, min, unsigned_abs};
ghost use Rattle.offer_exchange.specs.Exchange as spec;
ghost use Rattle.offer_exchange.specs.Laws.{AreWithin};
ghost use Rattle.ledger_types.specs.Prices.{IsPriced};
ghost use Rattle.offer_exchange.specs.Calls.{AreBounds, parts_of, bounds_of};
ghost use Rattle.offer_exchange.specs.Parts.{AreParts, amounts};

use crate::bounds::Bounds;
use crate::rounding::Rounding;
use crate::rows::{Amounts, some_stays, used_up};
use crate::zero_rules::unless_void;
use ledger_types::Price;

/// The parts of a price.
pub fn parts(price: Price) -> (u128, u128)
    requires { IsPriced price }
    ensures value { result ≡ parts_of price }
    ensures parts { AreParts result.0 result.1 }
{
    let n = price.n.unsigned_abs() as u128;
    let d = price.d.unsigned_abs() as u128;
    (n, d)
}

/// The worth of what one side can send, or of what the other can receive for it, whichever is less.
fn worth(n: u128, d: u128, send: i64, receive: i64) -> u128
    requires price { AreParts n d }
    requires send { pos 0 ≤ℤ send }
    requires receive { pos 0 ≤ℤ receive }
    ensures value { result ≡ spec.worth n d (unsigned_abs send) (unsigned_abs receive) }
    ensures small { result < 2 ^ 96 }
{
    let sent = send.unsigned_abs() as u128 * n;
    let received = receive.unsigned_abs() as u128 * d;
    sent.min(received)
}

/// The worth of the offer's side.
fn wheat_worth(n: u128, d: u128, bounds: Bounds) -> u128
    requires price { AreParts n d }
    requires bounds { AreBounds bounds }
    ensures value { result ≡ spec.wheat_worth n d (bounds_of bounds) }
    ensures small { result < 2 ^ 96 }
{
    worth(n, d, bounds.wheat_send, bounds.sheep_receive)
}

/// The worth of the taker's side.
fn sheep_worth(n: u128, d: u128, bounds: Bounds) -> u128
    requires price { AreParts n d }
    requires bounds { AreBounds bounds }
    ensures value { result ≡ spec.sheep_worth n d (bounds_of bounds) }
    ensures small { result < 2 ^ 96 }
{
    worth(d, n, bounds.sheep_send, bounds.wheat_receive)
}

/// The sheep that can go over.
fn most_sheep(bounds: Bounds) -> u128
    requires { AreBounds bounds }
    ensures { result ≡ min (unsigned_abs bounds.sheep_send) (unsigned_abs bounds.sheep_receive) }
{
    let sent = bounds.sheep_send.unsigned_abs();
    let received = bounds.sheep_receive.unsigned_abs();
    sent.min(received) as u128
}

/// Whether the offer has wheat left that the taker can't take: the wheat is worth more than the sheep.
#[tactic(auto, unfolding(crate::specs::Exchange::wheat_stays))]
pub fn wheat_stays(n: u128, d: u128, bounds: Bounds) -> bool
    requires price { AreParts n d }
    requires bounds { AreBounds bounds }
    ensures { result ≡ spec.wheat_stays n d (bounds_of bounds) }
{
    sheep_worth(n, d, bounds) < wheat_worth(n, d, bounds)
}

/// What the table gives, before the zero rules.
pub fn table(rounding: Rounding, n: u128, d: u128, bounds: Bounds) -> Amounts
    requires price { AreParts n d }
    requires bounds { AreBounds bounds }
    ensures value { amounts result ≡ spec.table rounding n d (bounds_of bounds) }
    ensures within { AreWithin (bounds_of bounds) (spec.table rounding n d (bounds_of bounds)) }
{
    if wheat_stays(n, d, bounds) {
        let v = sheep_worth(n, d, bounds);
        some_stays(rounding, n, d, v, most_sheep(bounds))
    } else {
        let v = wheat_worth(n, d, bounds);
        used_up(n, d, v)
    }
}

/// What an exchange moves.
#[tactic(auto, unfolding(crate::specs::Exchange::exchanged))]
pub fn exchanged(rounding: Rounding, n: u128, d: u128, bounds: Bounds) -> Amounts
    requires price { AreParts n d }
    requires bounds { AreBounds bounds }
    ensures value { amounts result ≡ spec.exchanged rounding n d (bounds_of bounds) }
    ensures within { AreWithin (bounds_of bounds) (spec.exchanged rounding n d (bounds_of bounds)) }
{
    unless_void(rounding, n, d, table(rounding, n, d, bounds))
}
