//! Data among the entries of a ledger.

ghost use Rattle.std.specs.Prelude.{◌≡◌, IfOk, IfSome, OnOk};
ghost use Rattle.entry_map.specs.ledger_types.declared.key.LedgerKey.TheVariants as key;
ghost use Rattle.entry_map.specs.EntryMap.{put, erase};
ghost use Rattle.entry_map.specs.Undo.{with_current};
ghost use Rattle.entry_slots.specs.DataEntries as spec;

use entry_map::ledger_types::{
    AccountId, DataEntry, LedgerEntry, LedgerEntryBody, LedgerEntryExtensionV1, LedgerKey,
};
use entry_map::{Base, Entries};
use item_list::ItemList;
use std::alloc::AllocError;

/// An entry of data, taken apart.
#[derive(Drop)]
pub struct DataSlot {
    pub last_modified_ledger_seq: u32,
    pub data_entry: DataEntry,
    pub ext: Option<LedgerEntryExtensionV1>,
}

/// The parts of an entry, where it is one of data.
pub fn data_slot_in(entry: LedgerEntry) -> Option<DataSlot>
    ensures slot { result ≡ spec.data_slot_in entry }
    ensures data_entry { spec.data_in entry.body ≡ spec.data_of_slot result }
{
    let (last_modified_ledger_seq, body, ext) = entry.into_parts();
    match body {
        LedgerEntryBody::Data(data_entry) => Some(DataSlot {
            last_modified_ledger_seq,
            data_entry,
            ext,
        }),
        _ => None,
    }
}

/// The account's data with this name, if it exists.
#[tactic(auto, unfolding(crate::specs::DataEntries::data_at))]
pub fn load_data<B: Base>(
    entries: &Entries<'_, B>,
    account_id: &AccountId,
    data_name: &ItemList<u8>,
) -> Result<Option<DataSlot>, AllocError>
    ensures slot { IfOk result (λ slot. slot ≡ spec.data_slot_at entries.now.current account_id.now data_name.now) }
    ensures data_entry { IfOk result (λ slot.
        spec.data_at entries.now.current account_id.now data_name.now ≡ spec.data_of_slot slot) }
    ensures keyed { IfOk result (λ slot.
        IfSome slot (λ s. (s.data_entry.account_id ≡ account_id.now) × (s.data_entry.data_name ≡ data_name.now))) }
{
    let key = LedgerKey::Data {
        account_id: *account_id,
        data_name: data_name.copy()?,
    };
    match entries.get(&key)? {
        None => Ok(None),
        Some(entry) => Ok(data_slot_in(entry)),
    }
}

/// Puts an entry of data under its key, in place of what was there.
pub fn store_data<B: Base>(entries: &mut Entries<'_, B>, slot: DataSlot) -> Result<(), AllocError>
    ensures { OnOk result (entries.new ≡ with_current entries.old (put entries.old.current (spec.entry_of_data slot))) }
{
    let DataSlot {
        last_modified_ledger_seq,
        data_entry,
        ext,
    } = slot;
    entries.put(LedgerEntry {
        last_modified_ledger_seq,
        body: LedgerEntryBody::Data(data_entry),
        ext,
    })
}

/// Removes the account's data with this name, if it exists.
pub fn erase_data<B: Base>(
    entries: &mut Entries<'_, B>,
    account_id: &AccountId,
    data_name: &ItemList<u8>,
) -> Result<(), AllocError>
    ensures { OnOk result (
        entries.new ≡ with_current entries.old (erase entries.old.current (key.Data account_id.now data_name.now))) }
{
    entries.erase(&LedgerKey::Data {
        account_id: *account_id,
        data_name: data_name.copy()?,
    })
}
