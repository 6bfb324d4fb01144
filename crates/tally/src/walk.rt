//! What all entries hold of an asset, summed up from the first entry to the last.

ghost use Rattle.std.specs.Prelude.{◌≡◌, IfOk};
ghost use Rattle.ledger_types.specs.declared.asset.Asset.TheVariants as asset;
ghost use Rattle.legal_rules.specs.entry_sums.Sums.{total};
ghost use Rattle.entry_changes.specs.Encodable.{HaveEntireIds};
ghost use Rattle.legal_rules.specs.Supply.{held};
ghost use Rattle.tally.specs.Walk as spec;

use crate::holdings::{held_if, held_in};
use entry_map::{Base, Entries};
use ledger_types::{AccountId, Asset, LedgerKey};
use std::alloc::AllocError;

/// More entries than this have no room in any memory. What so many hold fits 128 bits with a sign: each holds at most
/// 2^64 units either way.
const MOST_ENTRIES: u64 = 4611686018427387904;

/// The key ahead of all others: that of the account whose id is 32 zero bytes.
fn first_key() -> LedgerKey
    ensures { result ≡ spec.first_key }
{
    LedgerKey::Account {
        account_id: AccountId([0; 32]),
    }
}

/// What all entries hold of an asset, in units of 10^-7 (stroops): balances of accounts and lines, claimable balances
/// and the reserves of pools (CAP-0038). Shares of pools are no asset. It goes through all entries once, from the
/// least id on that an account's key can have in XDR.
pub fn supply<B: Base>(entries: &Entries<'_, B>, asset: &Asset) -> Result<i128, AllocError>
    ensures { HaveEntireIds entries.now.current
        → IfOk result (λ sum. sum ≡ total (held asset.now) entries.now.current) }
{
    let mut last = first_key();
    let mut sum = held_if(asset, &entries.get(&last)?);
    for _ in 0..MOST_ENTRIES {
        let Some(entry) = entries.next_after(&last)? else {
            return Ok(sum);
        };
        sum += held_in(asset, &entry.body);
        last = entry.key()?;
    }
    Err(AllocError)
}

/// All lumens that entries hold, in units of 10^-7 (stroops). The fee pool, which the header has, is left out.
pub fn lumens<B: Base>(entries: &Entries<'_, B>) -> Result<i128, AllocError>
    ensures { HaveEntireIds entries.now.current
        → IfOk result (λ sum. sum ≡ total (held asset.Native) entries.now.current) }
{
    supply(entries, &Asset::Native)
}
