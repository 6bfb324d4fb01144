//! Accounts among the entries of a ledger.

ghost use Rattle.std.specs.Prelude.{◌≡◌, IfOk, IfSome, OnOk};
ghost use Rattle.std.specs.Option.{option_copied};
ghost use Rattle.entry_map.specs.ledger_types.declared.key.LedgerKey.TheVariants as key;
ghost use Rattle.entry_map.specs.EntryMap.{put, erase};
ghost use Rattle.entry_map.specs.Undo.{with_current};
ghost use Rattle.entry_slots.specs.Accounts as spec;

use entry_map::ledger_types::{
    AccountEntry, AccountId, LedgerEntry, LedgerEntryBody, LedgerEntryExtensionV1, LedgerKey,
};
use entry_map::{Base, Entries};
use std::alloc::AllocError;

/// The entry of an account, taken apart.
#[derive(Drop)]
pub struct AccountSlot {
    pub last_modified_ledger_seq: u32,
    pub account: AccountEntry,
    pub ext: Option<LedgerEntryExtensionV1>,
}

/// The parts of an entry, where it is that of an account.
pub fn account_slot_in(entry: LedgerEntry) -> Option<AccountSlot>
    ensures slot { result ≡ spec.account_slot_in entry }
    ensures account { spec.account_in entry.body ≡ spec.account_of_slot result }
{
    let (last_modified_ledger_seq, body, ext) = entry.into_parts();
    match body {
        LedgerEntryBody::Account(account) => Some(AccountSlot {
            last_modified_ledger_seq,
            account,
            ext,
        }),
        _ => None,
    }
}

/// The account in an entry, if it is that of one.
pub fn account_in(entry: Option<&LedgerEntry>) -> Option<&AccountEntry>
    ensures { option_copied result ≡ spec.account_of (option_copied entry.entry) }
{
    match &entry?.body {
        LedgerEntryBody::Account(account) => Some(account),
        _ => None,
    }
}

/// The account with this id, if it exists.
#[tactic(auto, unfolding(crate::specs::Accounts::account_at))]
pub fn load_account<B: Base>(
    entries: &Entries<'_, B>,
    account_id: &AccountId,
) -> Result<Option<AccountSlot>, AllocError>
    ensures slot { IfOk result (λ slot. slot ≡ spec.account_slot_at entries.now.current account_id.now) }
    ensures account { IfOk result (λ slot.
        spec.account_at entries.now.current account_id.now ≡ spec.account_of_slot slot) }
    ensures keyed { IfOk result (λ slot. IfSome slot (λ s. s.account.account_id ≡ account_id.now)) }
{
    let key = LedgerKey::Account {
        account_id: *account_id,
    };
    match entries.get(&key)? {
        None => Ok(None),
        Some(entry) => Ok(account_slot_in(entry)),
    }
}

/// Puts the entry of an account under its key, in place of what was there.
pub fn store_account<B: Base>(
    entries: &mut Entries<'_, B>,
    slot: AccountSlot,
) -> Result<(), AllocError>
    ensures { OnOk result (
        entries.new ≡ with_current entries.old (put entries.old.current (spec.entry_of_account slot))) }
{
    let AccountSlot {
        last_modified_ledger_seq,
        account,
        ext,
    } = slot;
    entries.put(LedgerEntry {
        last_modified_ledger_seq,
        body: LedgerEntryBody::Account(account),
        ext,
    })
}

/// Removes the account with this id, if it exists.
pub fn erase_account<B: Base>(
    entries: &mut Entries<'_, B>,
    account_id: &AccountId,
) -> Result<(), AllocError>
    ensures { OnOk result (
        entries.new ≡ with_current entries.old (erase entries.old.current (key.Account account_id.now))) }
{
    entries.erase(&LedgerKey::Account {
        account_id: *account_id,
    })
}
