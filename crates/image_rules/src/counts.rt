//! Counts under keys.

ghost use Rattle.std.specs.Prelude.{◌≡◌, ◌+◌, pos, min, OnOk, option_map, if◌then◌else◌};
ghost use Rattle.ledger_types.specs.declared.key.LedgerKey.{LedgerKey as AKey};
ghost use Rattle.ledger_types.specs.declared.key.LedgerKey.TheVariants as key;
ghost use Rattle.close_rules.specs.legal_rules.EntryKeys.{is_key, for_key, for_account};
ghost use Rattle.image_rules.specs.Counts.{greatest_count, count_at, Adds};

use ledger_types::{AccountId, LedgerKey};
use std::alloc::AllocError;
use std::collections::BTreeMap;

/// A count for each key; a key that isn't there counts 0. A count stays at the greatest number of 64 bits where it
/// would pass it: no entry states as much.
pub type Tally = BTreeMap<LedgerKey, u64>;

/// What is counted for a key.
pub fn count_of(tally: &Tally, key: &LedgerKey) -> u64
    ensures { result ≡ count_at tally.now key.now }
{
    match tally.get(key) {
        None => 0,
        Some(count) => *count,
    }
}

/// Counts more for a key.
fn add(tally: &mut Tally, key: LedgerKey, more: u64) -> Result<(), AllocError>
    ensures { OnOk result ((q : AKey) → count_at tally.new q
        ≡ (if is_key key q then min (count_at tally.old key + more) greatest_count else count_at tally.old q)) }
{
    if let Some(count) = tally.get_mut(&key) {
        *count = count.saturating_add(more);
        return Ok(());
    }
    tally.insert(key, more)?;
    Ok(())
}

/// Counts more for a key, if one is named. To count nothing takes no slot in the tally.
pub fn add_at(tally: &mut Tally, named: Option<LedgerKey>, more: u64) -> Result<(), AllocError>
    ensures { OnOk result (Adds tally.old tally.new (λ k. for_key k named (pos more))) }
{
    if more == 0 {
        return Ok(());
    }
    match named {
        None => Ok(()),
        Some(key) => add(tally, key, more),
    }
}

/// The key of an account, if one is named.
fn account_key(id: Option<AccountId>) -> Option<LedgerKey>
    ensures { result ≡ option_map key.Account id }
{
    match id {
        None => None,
        Some(account_id) => Some(LedgerKey::Account { account_id }),
    }
}

/// Counts more for an account, if one is named.
pub fn add_for(tally: &mut Tally, id: Option<AccountId>, more: u64) -> Result<(), AllocError>
    ensures { OnOk result (Adds tally.old tally.new (λ k. for_account k id more)) }
{
    add_at(tally, account_key(id), more)
}
