//! What crossing one offer yields, in numbers alone.

ghost use Rattle.std.specs.Prelude.{◌≡◌, ◌≤◌, ◌-◌, ◌≤ℤ◌, pos, min, true, unsigned_abs};
ghost use Rattle.ledger_types.specs.Prices.{IsPriced};
ghost use Rattle.trade_cross.specs.Plans as spec;

use crate::location::Location;
use ledger_types::OfferEntry;
use offer_exchange::{Bounds, Exchanged, Rounding, adjust, exchange};

/// What is left of a taker's two bounds, each at least 0.
#[derive(Clone, Copy)]
pub struct Left {
    pub sheep_send: i64,
    pub wheat_receive: i64,
}

/// Where an offer's owner has its two assets, and what it can give and take of them at most, each at least 0, once it
/// is released from what the offer binds.
#[derive(Clone, Copy)]
pub struct Sides {
    pub gives_at: Location,
    pub gives: i64,
    pub takes_at: Location,
    pub takes: i64,
}

/// What an offer that is crossed gives and takes, whether wheat of it stays, and how much rests of it.
#[derive(Clone, Copy)]
pub struct Plan {
    pub wheat: i64,
    pub sheep: i64,
    pub wheat_stays: bool,
    pub rest: i64,
}

/// The lesser of two numbers of at least 0.
fn lesser(a: i64, b: i64) -> i64
    requires a { pos 0 ≤ℤ a }
    requires b { pos 0 ≤ℤ b }
    ensures value { unsigned_abs result ≡ min (unsigned_abs a) (unsigned_abs b) }
    ensures low { pos 0 ≤ℤ result }
{
    if a < b { a } else { b }
}

/// A number of at least 0 less one that isn't above it.
fn less(a: i64, b: i64) -> i64
    requires a { pos 0 ≤ℤ a }
    requires b { pos 0 ≤ℤ b }
    requires fits { unsigned_abs b ≤ unsigned_abs a }
    ensures value { unsigned_abs result ≡ unsigned_abs a - unsigned_abs b }
    ensures low { pos 0 ≤ℤ result }
{
    a - b
}

/// What is left of a bound once so much has moved; an issuer's stays.
fn still(location: Location, most: i64, moved: i64) -> i64
    requires moved { pos 0 ≤ℤ moved }
    requires fits { unsigned_abs moved ≤ unsigned_abs most }
    requires most { pos 0 ≤ℤ most }
    ensures value { unsigned_abs result ≡ spec.still_most location (unsigned_abs most) (unsigned_abs moved) }
    ensures low { pos 0 ≤ℤ result }
{
    match location {
        Location::Nowhere => most,
        _ => less(most, moved),
    }
}

/// How much rests of an offer of so much, at least 0: where wheat stays it is adjusted to what its owner can give and
/// take then.
fn rest_of(offer: &OfferEntry, sides: Sides, amount: i64, moved: Exchanged) -> i64
    requires priced { IsPriced offer.now.price }
    requires amount { pos 0 ≤ℤ amount }
    requires gives { pos 0 ≤ℤ sides.gives }
    requires takes { pos 0 ≤ℤ sides.takes }
    requires wheat { pos 0 ≤ℤ moved.wheat }
    requires sheep { pos 0 ≤ℤ moved.sheep }
    requires within { unsigned_abs moved.wheat ≤ unsigned_abs amount }
    requires given { unsigned_abs moved.wheat ≤ unsigned_abs sides.gives }
    requires taken { unsigned_abs moved.sheep ≤ unsigned_abs sides.takes }
    ensures { result ≡ pos (spec.rest_by offer.now sides (unsigned_abs amount) (unsigned_abs moved.wheat)
        (unsigned_abs moved.sheep) moved.wheat_stays) }
{
    if moved.wheat_stays {
        rest_that_stays(offer, sides, amount, moved)
    } else {
        0
    }
}

/// How much rests of an offer whose wheat stays.
fn rest_that_stays(offer: &OfferEntry, sides: Sides, amount: i64, moved: Exchanged) -> i64
    requires priced { IsPriced offer.now.price }
    requires amount { pos 0 ≤ℤ amount }
    requires gives { pos 0 ≤ℤ sides.gives }
    requires takes { pos 0 ≤ℤ sides.takes }
    requires wheat { pos 0 ≤ℤ moved.wheat }
    requires sheep { pos 0 ≤ℤ moved.sheep }
    requires within { unsigned_abs moved.wheat ≤ unsigned_abs amount }
    requires given { unsigned_abs moved.wheat ≤ unsigned_abs sides.gives }
    requires taken { unsigned_abs moved.sheep ≤ unsigned_abs sides.takes }
    ensures { result ≡ pos (spec.rest_by offer.now sides (unsigned_abs amount) (unsigned_abs moved.wheat)
        (unsigned_abs moved.sheep) true) }
{
    let gives = still(sides.gives_at, sides.gives, moved.wheat);
    let takes = still(sides.takes_at, sides.takes, moved.sheep);
    adjust(offer.price, lesser(less(amount, moved.wheat), gives), takes)
}

/// What an offer gives and takes, and how much rests of it.
pub fn plan_of(rounding: Rounding, offer: &OfferEntry, sides: Sides, left: Left) -> Plan
    requires priced { IsPriced offer.now.price }
    requires amount { pos 0 ≤ℤ offer.now.amount }
    requires gives { pos 0 ≤ℤ sides.gives }
    requires takes { pos 0 ≤ℤ sides.takes }
    requires left { spec.AreLeft left }
    ensures { spec.IsPlan rounding offer.now sides left result }
{
    let amount = adjust(offer.price, lesser(offer.amount, sides.gives), sides.takes);
    let bounds = Bounds {
        wheat_send: amount,
        wheat_receive: left.wheat_receive,
        sheep_send: left.sheep_send,
        sheep_receive: sides.takes,
    };
    let moved = exchange(offer.price, bounds, rounding);
    let rest = rest_of(offer, sides, amount, moved);
    Plan {
        wheat: moved.wheat,
        sheep: moved.sheep,
        wheat_stays: moved.wheat_stays,
        rest,
    }
}
