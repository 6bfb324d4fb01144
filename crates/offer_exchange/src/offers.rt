//! What an offer can really give, and what it binds.

ghost use Rattle.std.specs.Prelude.{◌≡◌, ◌≤◌, pos, ◌≤ℤ◌, unsigned_abs};
ghost use Rattle.offer_exchange.specs.Exchange as spec;
ghost use Rattle.offer_exchange.specs.Exchange.{adjusted};
ghost use Rattle.offer_exchange.specs.Laws.{IsBound, StaysAdjusted};
ghost use Rattle.ledger_types.specs.Prices.{IsPriced};
ghost use Rattle.offer_exchange.specs.Calls.{AreBounds, AreLiabilities, AreWanted, parts_of, bounds_of};

use crate::bounds::Bounds;
use crate::rounding::Rounding;
use crate::rows::Amounts;
use crate::table::{exchanged, parts, table};
use ledger_types::{Liabilities, Price};

/// No bound.
const UNLIMITED: i64 = i64::MAX;

/// The bounds of a trade that the offer's side alone bounds.
fn offered(send: i64, receive: i64) -> Bounds
    requires send { pos 0 ≤ℤ send }
    requires receive { pos 0 ≤ℤ receive }
    ensures value { bounds_of result ≡ spec.offered (unsigned_abs send) (unsigned_abs receive) }
    ensures bounds { AreBounds result }
{
    Bounds {
        wheat_send: send,
        wheat_receive: UNLIMITED,
        sheep_send: UNLIMITED,
        sheep_receive: receive,
    }
}

/// The wheat that an offer can really give, of which its owner can send and for which it can receive so much, each at
/// least 0: what a trade moves that nothing else bounds.
#[tactic(auto, unfolding(crate::specs::Exchange::adjusted))]
pub fn adjust(price: Price, send: i64, receive: i64) -> i64
    requires priced { IsPriced price }
    requires send { pos 0 ≤ℤ send }
    requires receive { pos 0 ≤ℤ receive }
    ensures value { result ≡ pos (adjusted (parts_of price).0 (parts_of price).1 (unsigned_abs send)
        (unsigned_abs receive)) }
    ensures bound { IsBound (parts_of price).0 (parts_of price).1 (unsigned_abs send) (unsigned_abs receive)
        (unsigned_abs result) }
    ensures again { StaysAdjusted (parts_of price).0 (parts_of price).1 (unsigned_abs receive) (unsigned_abs result) }
{
    let (n, d) = parts(price);
    exchanged(Rounding::Normal, n, d, offered(send, receive)).wheat as i64
}

/// What an offer binds: the wheat that it would send, and the sheep that it would receive.
fn bound_by(moved: Amounts) -> Liabilities
    requires wheat { moved.wheat ≤ spec.unlimited }
    requires sheep { moved.sheep ≤ spec.unlimited }
    ensures selling { result.selling ≡ pos moved.wheat }
    ensures buying { result.buying ≡ pos moved.sheep }
{
    Liabilities {
        buying: moved.sheep as i64,
        selling: moved.wheat as i64,
    }
}

/// What an offer would bind of which its owner wants to send and for which it wants to receive so much at most, each at
/// least 0: what the table gives, before the zero rules.
pub fn wanted(price: Price, send: i64, receive: i64) -> Liabilities
    requires priced { IsPriced price }
    requires send { pos 0 ≤ℤ send }
    requires receive { pos 0 ≤ℤ receive }
    ensures { AreWanted price send receive result }
{
    let (n, d) = parts(price);
    bound_by(table(Rounding::Normal, n, d, offered(send, receive)))
}

/// What an open offer of so much wheat, at least 0, binds of what its owner has and has room for.
#[tactic(auto, unfolding(crate::specs::Exchange::liabilities))]
pub fn liabilities(price: Price, amount: i64) -> Liabilities
    requires priced { IsPriced price }
    requires amount { pos 0 ≤ℤ amount }
    ensures { AreLiabilities price amount result }
{
    wanted(price, amount, UNLIMITED)
}
