//! Claimable balances among the entries of a ledger.

ghost use Rattle.std.specs.Prelude.{◌≡◌, IfOk, IfSome, OnOk};
ghost use Rattle.entry_map.specs.ledger_types.declared.key.LedgerKey.TheVariants as key;
ghost use Rattle.entry_map.specs.EntryMap.{put, erase};
ghost use Rattle.entry_map.specs.Undo.{with_current};
ghost use Rattle.entry_slots.specs.Balances as spec;

use entry_map::ledger_types::{
    ClaimableBalanceEntry, ClaimableBalanceId, LedgerEntry, LedgerEntryBody,
    LedgerEntryExtensionV1, LedgerKey,
};
use entry_map::{Base, Entries};
use std::alloc::AllocError;

/// The entry of a claimable balance, taken apart.
#[derive(Drop)]
pub struct BalanceSlot {
    pub last_modified_ledger_seq: u32,
    pub balance: ClaimableBalanceEntry,
    pub ext: Option<LedgerEntryExtensionV1>,
}

/// The parts of an entry, where it is that of a claimable balance.
pub fn balance_slot_in(entry: LedgerEntry) -> Option<BalanceSlot>
    ensures slot { result ≡ spec.balance_slot_in entry }
    ensures balance { spec.balance_in entry.body ≡ spec.balance_of_slot result }
{
    let (last_modified_ledger_seq, body, ext) = entry.into_parts();
    match body {
        LedgerEntryBody::ClaimableBalance(balance) => Some(BalanceSlot {
            last_modified_ledger_seq,
            balance,
            ext,
        }),
        _ => None,
    }
}

/// The claimable balance with this id, if it exists.
#[tactic(auto, unfolding(crate::specs::Balances::balance_at))]
pub fn load_balance<B: Base>(
    entries: &Entries<'_, B>,
    balance_id: &ClaimableBalanceId,
) -> Result<Option<BalanceSlot>, AllocError>
    ensures slot { IfOk result (λ slot. slot ≡ spec.balance_slot_at entries.now.current balance_id.now) }
    ensures balance { IfOk result (λ slot.
        spec.balance_at entries.now.current balance_id.now ≡ spec.balance_of_slot slot) }
    ensures keyed { IfOk result (λ slot. IfSome slot (λ s. s.balance.balance_id ≡ balance_id.now)) }
{
    let key = LedgerKey::ClaimableBalance {
        balance_id: *balance_id,
    };
    match entries.get(&key)? {
        None => Ok(None),
        Some(entry) => Ok(balance_slot_in(entry)),
    }
}

/// Puts the entry of a claimable balance under its key, in place of what was there.
pub fn store_balance<B: Base>(
    entries: &mut Entries<'_, B>,
    slot: BalanceSlot,
) -> Result<(), AllocError>
    ensures { OnOk result (
        entries.new ≡ with_current entries.old (put entries.old.current (spec.entry_of_balance slot))) }
{
    let BalanceSlot {
        last_modified_ledger_seq,
        balance,
        ext,
    } = slot;
    entries.put(LedgerEntry {
        last_modified_ledger_seq,
        body: LedgerEntryBody::ClaimableBalance(balance),
        ext,
    })
}

/// Removes the claimable balance with this id, if it exists.
pub fn erase_balance<B: Base>(
    entries: &mut Entries<'_, B>,
    balance_id: &ClaimableBalanceId,
) -> Result<(), AllocError>
    ensures { OnOk result (
        entries.new ≡ with_current entries.old (erase entries.old.current (key.ClaimableBalance balance_id.now))) }
{
    entries.erase(&LedgerKey::ClaimableBalance {
        balance_id: *balance_id,
    })
}
