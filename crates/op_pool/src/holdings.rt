//! What an account can do with an asset, and amounts of it that it is paid.

ghost use Rattle.std.specs.Prelude.{◌≡◌, ◌≤ℤ◌, neg_ℤ, pos, IfOk, OnOk};
ghost use Rattle.entry_map.specs.Undo.{with_current};
ghost use Rattle.trade_cross.specs.legal_rules.Trades.{holder};
ghost use Rattle.trade_cross.specs.Amounts.{DoesPaymentFit};
ghost use Rattle.trade_cross.specs.Holdings as holdings;
ghost use Rattle.trade_cross.specs.Locations.{location_key};
ghost use Rattle.op_form.specs.Premises.{BalancesAreInRange};
ghost use Rattle.op_pool.specs.Calls.{DoPaymentsFit, map_after_payments};
ghost use Rattle.op_pool.specs.Deposit.{is_unusable};
ghost use Rattle.pool_shares.specs.Premises.{ArePoolsSound};

use entry_map::{Base, Entries};
use entry_slots::load_line;
use ledger_types::{AccountId, Asset, PoolParams};
use op_form::is_authorized;
use std::alloc::AllocError;
use trade_cross::{Location, is_short, location_of, most_taken, pay};

/// Whether an account can't use what it holds there: its line doesn't exist, or doesn't carry AUTHORIZED.
fn is_unusable_at<B: Base>(
    entries: &Entries<'_, B>,
    id: &AccountId,
    location: Location,
) -> Result<bool, AllocError>
    ensures { IfOk result (λ unusable. unusable ≡ is_unusable entries.now.current (location_key id.now location)) }
{
    match location {
        Location::Account | Location::Nowhere => Ok(false),
        Location::Line(held) => match load_line(entries, id, &held)? {
            None => Ok(true),
            Some(slot) => Ok(!is_authorized(&slot.line)),
        },
    }
}

/// Whether an account can't use what it has of an asset. Lumens, and what it issues, it may always use.
pub fn is_asset_unusable<B: Base>(
    entries: &Entries<'_, B>,
    id: &AccountId,
    asset: &Asset,
) -> Result<bool, AllocError>
    ensures { IfOk result (λ unusable. unusable ≡ is_unusable entries.now.current (holder id.now asset.now)) }
{
    is_unusable_at(entries, id, location_of(id, asset))
}

/// Whether less than so much of an asset is available to an account.
pub fn is_asset_short<B: Base>(
    entries: &Entries<'_, B>,
    base_reserve: u32,
    id: &AccountId,
    asset: &Asset,
    amount: i64,
) -> Result<bool, AllocError>
    requires { BalancesAreInRange entries.now.current }
    ensures { IfOk result (λ short. short ≡ holdings.is_short_of amount (
        holdings.has_at base_reserve entries.now.current (holder id.now asset.now))) }
{
    is_short(entries, base_reserve, id, location_of(id, asset), amount)
}

/// What an account can take of an asset at most.
pub fn most_of_asset<B: Base>(
    entries: &Entries<'_, B>,
    id: &AccountId,
    asset: &Asset,
) -> Result<i64, AllocError>
    requires in_range { BalancesAreInRange entries.now.current }
    requires sound { ArePoolsSound entries.now.current }
    ensures { IfOk result (λ most. most ≡ pos (holdings.most_taken entries.now.current (holder id.now asset.now))) }
{
    most_taken(entries, id, location_of(id, asset))
}

/// A number of at least 0 with its sign turned.
pub fn turned(number: i64) -> i64
    requires { pos 0 ≤ℤ number }
    ensures { result ≡ neg_ℤ number }
{
    -number
}

/// Pays an account an amount of an asset, which may be below 0.
fn pay_asset<B: Base>(
    entries: &mut Entries<'_, B>,
    id: &AccountId,
    asset: &Asset,
    amount: i64,
) -> Result<(), AllocError>
    requires { DoesPaymentFit entries.old.current (holder id.now asset.now) amount }
    ensures { OnOk result (
        entries.new ≡
        with_current entries.old (holdings.paying (holder id.now asset.now) amount entries.old.current)) }
{
    pay(entries, id, location_of(id, asset), amount)
}

/// Pays an account amounts of a pool's two assets, which may be below 0.
pub fn pay_both<B: Base>(
    entries: &mut Entries<'_, B>,
    id: &AccountId,
    params: &PoolParams,
    a: i64,
    b: i64,
) -> Result<(), AllocError>
    requires { DoPaymentsFit id.now params.now a b entries.old.current }
    ensures { OnOk result (
        entries.new ≡ with_current entries.old (map_after_payments id.now params.now a b entries.old.current)) }
{
    pay_asset(entries, id, &params.asset_a, a)?;
    pay_asset(entries, id, &params.asset_b, b)
}
