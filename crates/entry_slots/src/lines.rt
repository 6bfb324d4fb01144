//! Trust lines among the entries of a ledger.

ghost use Rattle.std.specs.Prelude.{◌≡◌, IfOk, IfSome, OnOk};
ghost use Rattle.entry_map.specs.ledger_types.declared.key.LedgerKey.TheVariants as key;
ghost use Rattle.entry_map.specs.EntryMap.{put, erase};
ghost use Rattle.entry_map.specs.Undo.{with_current};
ghost use Rattle.entry_slots.specs.Lines as spec;

use entry_map::ledger_types::{
    AccountId, LedgerEntry, LedgerEntryBody, LedgerEntryExtensionV1, LedgerKey, TrustLineAsset,
    TrustLineEntry,
};
use entry_map::{Base, Entries};
use std::alloc::AllocError;

/// The entry of a trust line, taken apart.
#[derive(Clone, Copy)]
pub struct LineSlot {
    pub last_modified_ledger_seq: u32,
    pub line: TrustLineEntry,
    pub ext: Option<LedgerEntryExtensionV1>,
}

/// The parts of an entry, where it is that of a trust line.
pub fn line_slot_in(entry: LedgerEntry) -> Option<LineSlot>
    ensures slot { result ≡ spec.line_slot_in entry }
    ensures line { spec.line_in entry.body ≡ spec.line_of_slot result }
{
    let (last_modified_ledger_seq, body, ext) = entry.into_parts();
    match body {
        LedgerEntryBody::TrustLine(line) => Some(LineSlot {
            last_modified_ledger_seq,
            line,
            ext,
        }),
        _ => None,
    }
}

/// The account's trust line in this asset, if it exists.
#[tactic(auto, unfolding(crate::specs::Lines::line_at))]
pub fn load_line<B: Base>(
    entries: &Entries<'_, B>,
    account_id: &AccountId,
    asset: &TrustLineAsset,
) -> Result<Option<LineSlot>, AllocError>
    ensures slot { IfOk result (λ slot. slot ≡ spec.line_slot_at entries.now.current account_id.now asset.now) }
    ensures line { IfOk result (λ slot.
        spec.line_at entries.now.current account_id.now asset.now ≡ spec.line_of_slot slot) }
    ensures keyed { IfOk result (λ slot.
        IfSome slot (λ s. (s.line.account_id ≡ account_id.now) × (s.line.asset ≡ asset.now))) }
{
    let key = LedgerKey::TrustLine {
        account_id: *account_id,
        asset: *asset,
    };
    match entries.get(&key)? {
        None => Ok(None),
        Some(entry) => Ok(line_slot_in(entry)),
    }
}

/// Puts the entry of a trust line under its key, in place of what was there.
pub fn store_line<B: Base>(entries: &mut Entries<'_, B>, slot: LineSlot) -> Result<(), AllocError>
    ensures { OnOk result (entries.new ≡ with_current entries.old (put entries.old.current (spec.entry_of_line slot))) }
{
    let LineSlot {
        last_modified_ledger_seq,
        line,
        ext,
    } = slot;
    entries.put(LedgerEntry {
        last_modified_ledger_seq,
        body: LedgerEntryBody::TrustLine(line),
        ext,
    })
}

/// Removes the account's trust line in this asset, if it exists.
pub fn erase_line<B: Base>(
    entries: &mut Entries<'_, B>,
    account_id: &AccountId,
    asset: &TrustLineAsset,
) -> Result<(), AllocError>
    ensures { OnOk result (
        entries.new ≡ with_current entries.old (erase entries.old.current (key.TrustLine account_id.now asset.now))) }
{
    entries.erase(&LedgerKey::TrustLine {
        account_id: *account_id,
        asset: *asset,
    })
}
