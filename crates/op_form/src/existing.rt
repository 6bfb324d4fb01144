//! Which accounts exist.

ghost use Rattle.std.specs.Prelude.{◌≡◌, IfOk, is_some};
ghost use Rattle.entry_slots.specs.Accounts.{account_at};

use entry_map::{Base, Entries};
use entry_slots::load_facts;
use ledger_types::AccountId;
use std::alloc::AllocError;

/// Whether the account with this id exists.
pub fn exists<B: Base>(entries: &Entries<'_, B>, id: &AccountId) -> Result<bool, AllocError>
    ensures { IfOk result (λ exists. exists ≡ is_some (account_at entries.now.current id.now)) }
{
    Ok(load_facts(entries, id)?.is_some())
}
