//! Whether an account has too little of an asset.

ghost use Rattle.std.specs.Prelude.{◌≡◌, Some, IfOk};
ghost use Rattle.ledger_types.specs.declared.key.LedgerKey.TheVariants as key;
ghost use Rattle.entry_slots.specs.Accounts.{account_at};
ghost use Rattle.entry_slots.specs.Lines.{line_at};
ghost use Rattle.trade_cross.specs.Holdings as spec;
ghost use Rattle.trade_cross.specs.Locations.{location_key};
ghost use Rattle.trade_cross.specs.Sides.{IsInRangeAt};

use crate::location::Location;
use entry_map::{Base, Entries};
use entry_slots::{load_facts, load_line};
use ledger_types::{AccountId, TrustLineAsset};
use reserve_rules::{facts_available, line_available};
use std::alloc::AllocError;

/// Whether less than so many lumens are available to an account that exists.
fn is_account_short<B: Base>(
    entries: &Entries<'_, B>,
    base_reserve: u32,
    id: &AccountId,
    amount: i64,
) -> Result<bool, AllocError>
    ensures { IfOk result (λ short. short ≡ spec.is_short_of amount (
        spec.account_has base_reserve (account_at entries.now.current id.now))) }
{
    match load_facts(entries, id)? {
        None => Ok(false),
        Some(facts) => Ok(facts_available(&facts, base_reserve) < i128::from(amount)),
    }
}

/// Whether less than so much is available of a line that exists.
fn is_line_short<B: Base>(
    entries: &Entries<'_, B>,
    id: &AccountId,
    held: &TrustLineAsset,
    amount: i64,
) -> Result<bool, AllocError>
    requires { IsInRangeAt entries.now.current (Some (key.TrustLine id.now held.now)) }
    ensures { IfOk result (λ short. short ≡ spec.is_short_of amount (
        spec.line_has (line_at entries.now.current id.now held.now))) }
{
    match load_line(entries, id, held)? {
        None => Ok(false),
        Some(slot) => Ok(line_available(&slot.line) < amount),
    }
}

/// Whether less than so much of an asset is available to an account, which may have less than nothing. Of what it
/// issues nothing is short.
pub fn is_short<B: Base>(
    entries: &Entries<'_, B>,
    base_reserve: u32,
    id: &AccountId,
    location: Location,
    amount: i64,
) -> Result<bool, AllocError>
    requires { IsInRangeAt entries.now.current (location_key id.now location) }
    ensures { IfOk result (λ short. short ≡ spec.is_short_of amount (
        spec.has_at base_reserve entries.now.current (location_key id.now location))) }
{
    match location {
        Location::Account => is_account_short(entries, base_reserve, id, amount),
        Location::Line(held) => is_line_short(entries, id, &held, amount),
        Location::Nowhere => Ok(false),
    }
}
