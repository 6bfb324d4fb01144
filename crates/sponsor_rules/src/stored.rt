//! Accounts that are loaded, and stored after a change of counts or signers.

ghost use Rattle.std.specs.Prelude.{◌≡◌, ◌≢◌, Some, OnOk, IfOk};
ghost use Rattle.std.specs.FinMap.{get};
ghost use Rattle.ledger_types.specs.Keys.{key_of};
ghost use Rattle.reserve_rules.specs.entry_map.Book.{offer_of};
ghost use Rattle.reserve_rules.specs.entry_map.EntryMap.{put, erase};
ghost use Rattle.reserve_rules.specs.entry_map.Undo.{with_current};
ghost use Rattle.reserve_rules.specs.entry_slots.Accounts.{entry_of_account};
ghost use Rattle.sponsor_rules.specs.declared.count.Count.{Count as ACount};
ghost use Rattle.sponsor_rules.specs.Keeping as spec;

use crate::payers::is_same_account;
use ledger_types::{AccountId, LedgerEntry, LedgerKey, OfferEntry};
use reserve_rules::entry_map::{Base, Entries};
use reserve_rules::entry_slots::{AccountSlot, load_account, store_account};
use std::alloc::AllocError;

/// What is under an account's id.
pub fn load<B: Base>(
    entries: &Entries<'_, B>,
    id: &AccountId,
) -> Result<Option<AccountSlot>, AllocError>
    ensures { IfOk result (spec.IsLoaded entries.now.current id.now) }
{
    load_account(entries, id)
}

/// What is under an account's id. `slot` was loaded there before the account `changed` was stored: unless that is the
/// same account, it is still right.
pub fn still_loaded<B: Base>(
    entries: &Entries<'_, B>,
    id: &AccountId,
    slot: Option<AccountSlot>,
    changed: &Option<AccountId>,
) -> Result<Option<AccountSlot>, AllocError>
    requires { changed.now ≢ Some id.now → spec.IsLoaded entries.now.current id.now slot }
    ensures { IfOk result (spec.IsLoaded entries.now.current id.now) }
{
    let Some(changed) = changed else {
        return Ok(slot);
    };
    if is_same_account(changed, id) {
        return load(entries, id);
    }
    Ok(slot)
}

/// Stores an account whose counts or signers have changed in place of the one that is there.
pub fn store_changed<B: Base>(
    entries: &mut Entries<'_, B>,
    id: &AccountId,
    slot: AccountSlot,
) -> Result<(), AllocError>
    requires named { slot.account.account_id ≡ id.now }
    requires change { spec.IsChangeOf entries.old.current id.now slot.account }
    ensures stored { OnOk result (
        entries.new ≡ with_current entries.old (put entries.old.current (entry_of_account slot))) }
    ensures core { OnOk result (spec.LeavesCore entries.old.current entries.new.current) }
    ensures others { OnOk result (spec.ChangesAtMost (Some id.now) entries.old.current entries.new.current) }
    ensures kept { (count : ACount) →
        spec.IsChanged (spec.KeepsOtherCounts count) entries.old.current id.now slot.account →
        OnOk result (spec.KeepsOthers count entries.old.current entries.new.current) }
    ensures low { spec.IsChanged spec.RaisesNoCount entries.old.current id.now slot.account →
        OnOk result (spec.RaisesNone entries.old.current entries.new.current) }
{
    store_account(entries, slot)
}

/// Puts an entry under its key. No account but one under that key changes.
pub fn put_entry<B: Base>(
    entries: &mut Entries<'_, B>,
    entry: LedgerEntry,
) -> Result<(), AllocError>
    ensures put { OnOk result (entries.new ≡ with_current entries.old (put entries.old.current entry)) }
    ensures core { OnOk result (spec.LeavesOtherCores (key_of entry) entries.old.current entries.new.current) }
{
    entries.put(entry)
}

/// Removes what is under a key. No account but one under that key changes.
pub fn erase_entry<B: Base>(entries: &mut Entries<'_, B>, key: &LedgerKey) -> Result<(), AllocError>
    ensures erased { OnOk result (entries.new ≡ with_current entries.old (erase entries.old.current key.now)) }
    ensures low { OnOk result (spec.RaisesNone entries.old.current entries.new.current) }
    ensures core { OnOk result (spec.LeavesOtherCores key.now entries.old.current entries.new.current) }
{
    entries.erase(key)
}

/// Removes the offer under a key, which is known. No account but one under that key changes.
pub fn erase_offer<B: Base>(
    entries: &mut Entries<'_, B>,
    key: &LedgerKey,
    offer: &OfferEntry,
) -> Result<(), AllocError>
    requires { offer_of (get entries.old.current key.now) ≡ Some offer.now }
    ensures erased { OnOk result (entries.new ≡ with_current entries.old (erase entries.old.current key.now)) }
    ensures low { OnOk result (spec.RaisesNone entries.old.current entries.new.current) }
    ensures core { OnOk result (spec.LeavesOtherCores key.now entries.old.current entries.new.current) }
{
    entries.erase_offer(key, offer)
}
