//! Amounts that are paid and bound where an account has an asset.

ghost use Rattle.std.specs.Prelude.{◌≡◌, ◌≤◌, neg_ℤ, pos, ◌≤ℤ◌, IfOk, OnOk};
ghost use Rattle.ledger_types.specs.Prices.{IsPriced};
ghost use Rattle.entry_map.specs.Undo.{with_current};
ghost use Rattle.offer_exchange.specs.Exchange.{unlimited};
ghost use Rattle.legal_rules.specs.Binding as binding;
ghost use Rattle.trade_cross.specs.Amounts as spec;
ghost use Rattle.trade_cross.specs.Holdings as holdings;
ghost use Rattle.trade_cross.specs.Locations.{location_key};
ghost use Rattle.trade_cross.specs.Sides.{IsInRangeAt};

use crate::holding::{Change, change_holding};
use crate::location::{Location, location_of};
use crate::side::{most_given_with, most_taken_with};
use entry_map::{Base, Entries};
use ledger_types::{AccountId, OfferEntry};
use offer_exchange::liabilities;
use std::alloc::AllocError;

/// What an account can give of an asset at most, at least 0: what is available, and of what it issues as much as it
/// likes.
#[tactic(auto, using(crate::proofs::Bonds::given_now))]
pub fn most_given<B: Base>(
    entries: &Entries<'_, B>,
    base_reserve: u32,
    id: &AccountId,
    location: Location,
) -> Result<i64, AllocError>
    requires range { IsInRangeAt entries.now.current (location_key id.now location) }
    requires fits { holdings.most_given base_reserve entries.now.current (location_key id.now location) ≤ unlimited }
    ensures { IfOk result (λ most.
        most ≡ pos (holdings.most_given base_reserve entries.now.current (location_key id.now location))) }
{
    most_given_with(entries, base_reserve, id, location, 0)
}

/// What an account can take of an asset at most, at least 0: what it has room for, and of what it issues as much as it
/// likes.
#[tactic(auto, using(crate::proofs::Bonds::taken_now))]
pub fn most_taken<B: Base>(
    entries: &Entries<'_, B>,
    id: &AccountId,
    location: Location,
) -> Result<i64, AllocError>
    requires range { IsInRangeAt entries.now.current (location_key id.now location) }
    requires fits { holdings.most_taken entries.now.current (location_key id.now location) ≤ unlimited }
    ensures { IfOk result
        (λ most. most ≡ pos (holdings.most_taken entries.now.current (location_key id.now location))) }
{
    most_taken_with(entries, id, location, 0)
}

/// Adds an amount, which may be below 0, to what an account has of an asset.
pub fn pay<B: Base>(
    entries: &mut Entries<'_, B>,
    id: &AccountId,
    location: Location,
    amount: i64,
) -> Result<(), AllocError>
    requires { spec.DoesPaymentFit entries.old.current (location_key id.now location) amount }
    ensures { OnOk result (
        entries.new ≡
        with_current entries.old (holdings.paying (location_key id.now location) amount entries.old.current)) }
{
    let payment = Change {
        balance: amount,
        selling: 0,
        buying: 0,
    };
    change_holding(entries, id, location, payment)
}

/// A number of at least 0 with its sign turned.
fn turned(number: i64) -> i64
    requires { pos 0 ≤ℤ number }
    ensures { result ≡ neg_ℤ number }
{
    -number
}

/// Takes an amount of at least 0 from what an account has of an asset.
pub fn take<B: Base>(
    entries: &mut Entries<'_, B>,
    id: &AccountId,
    location: Location,
    amount: i64,
) -> Result<(), AllocError>
    requires amount { pos 0 ≤ℤ amount }
    requires fits { spec.DoesPaymentFit entries.old.current (location_key id.now location) (neg_ℤ amount) }
    ensures { OnOk result (
        entries.new ≡
        with_current entries.old (holdings.paying (location_key id.now location) (neg_ℤ amount) entries.old.current)) }
{
    pay(entries, id, location, turned(amount))
}

/// Binds so much more of what an account has of an asset, for what its offers would give and take. Each may be below 0.
fn bind<B: Base>(
    entries: &mut Entries<'_, B>,
    id: &AccountId,
    location: Location,
    selling: i64,
    buying: i64,
) -> Result<(), AllocError>
    requires { spec.DoesBondFit entries.old.current (location_key id.now location) selling buying }
    ensures { OnOk result (
        entries.new ≡
        with_current entries.old (binding.binding (location_key id.now location) selling buying entries.old.current)) }
{
    let bond = Change {
        balance: 0,
        selling,
        buying,
    };
    change_holding(entries, id, location, bond)
}

/// Binds so much more of both sides of an offer.
fn bind_sides<B: Base>(
    entries: &mut Entries<'_, B>,
    offer: &OfferEntry,
    selling: i64,
    buying: i64,
) -> Result<(), AllocError>
    requires { spec.DoBondsFit offer.now selling buying entries.old.current }
    ensures { OnOk result (
        entries.new ≡ with_current entries.old (spec.both_bound offer.now selling buying entries.old.current)) }
{
    let seller_id = &offer.seller_id;
    let gives_at = location_of(seller_id, &offer.selling);
    bind(entries, seller_id, gives_at, selling, 0)?;
    let takes_at = location_of(seller_id, &offer.buying);
    bind(entries, seller_id, takes_at, 0, buying)
}

/// Binds what an offer would give and take, where its seller holds it.
pub fn acquire<B: Base>(entries: &mut Entries<'_, B>, offer: &OfferEntry) -> Result<(), AllocError>
    requires priced { IsPriced offer.now.price }
    requires amount { pos 0 ≤ℤ offer.now.amount }
    requires fits { spec.DoesAcquireFit offer.now entries.old.current }
    ensures { OnOk result (
        entries.new ≡ with_current entries.old (binding.acquiring offer.now entries.old.current)) }
{
    let bound = liabilities(offer.price, offer.amount);
    bind_sides(entries, offer, bound.selling, bound.buying)
}

/// Releases what an offer binds.
pub fn release<B: Base>(entries: &mut Entries<'_, B>, offer: &OfferEntry) -> Result<(), AllocError>
    requires priced { IsPriced offer.now.price }
    requires amount { pos 0 ≤ℤ offer.now.amount }
    requires fits { spec.DoesReleaseFit offer.now entries.old.current }
    ensures { OnOk result (
        entries.new ≡ with_current entries.old (binding.releasing offer.now entries.old.current)) }
{
    let bound = liabilities(offer.price, offer.amount);
    bind_sides(entries, offer, turned(bound.selling), turned(bound.buying))
}
