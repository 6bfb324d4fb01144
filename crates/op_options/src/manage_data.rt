//! MANAGE_DATA.

ghost use Rattle.std.specs.Prelude.{◌≡◌, ◌<◌, Some, IfOk, OnOk};
ghost use Rattle.entry_map.specs.EntryMap.{EntryMap as AMap};
ghost use Rattle.entry_map.specs.Undo.{with_current};
ghost use Rattle.entry_slots.specs.DataEntries as data_entries;
ghost use Rattle.sponsor_rules.specs.Adding.{AreReady};
ghost use Rattle.sponsor_rules.specs.Payers.{IsReady};
ghost use Rattle.op_form.specs.Sequences.{last_seq};
ghost use Rattle.op_form.specs.Done.{Makes};
ghost use Rattle.op_form.specs.Premises.{AccountsAreReady};
ghost use Rattle.op_options.specs.ManageData as spec;

use entry_map::{Base, Entries};
use entry_slots::{DataSlot, load_data, store_data};
use item_list::ItemList;
use ledger_types::{DataEntry, LedgerEntry, LedgerEntryBody, LedgerKey};
use op_form::fault_result;
use op_types::{ManageDataOp, ManageDataResult, OperationResult, OperationResultTr};
use sponsor_rules::{AddFault, Ctx, add_entry, remove_entry};
use std::alloc::AllocError;
use valid_values::is_valid_text;

/// MANAGE_DATA: adds data, gives it another value, or removes it.
pub fn manage_data<B: Base>(
    op: &ManageDataOp,
    ctx: &Ctx,
    entries: &mut Entries<'_, B>,
) -> Result<OperationResult, AllocError>
    requires seq { ctx.now.seq < last_seq }
    requires ready { AccountsAreReady entries.old.current }
    ensures { IfOk result (λ r.
        Makes r ctx.now entries.old entries.new (spec.manage_data ctx.now op.now entries.old.current)) }
{
    if op.data_name.is_empty() || !is_valid_text(op.data_name.as_slice()) {
        return Ok(answer(ManageDataResult::InvalidName));
    }
    match &op.data_value {
        None => remove(ctx, entries, &op.data_name),
        Some(value) => set_value(ctx, entries, &op.data_name, value),
    }
}

/// What the operation answers.
fn answer(code: ManageDataResult) -> OperationResult
    ensures { result ≡ spec.answer code }
{
    OperationResult::Inner(OperationResultTr::ManageData(code))
}

/// Removes the source's data with a name.
fn remove<B: Base>(
    ctx: &Ctx,
    entries: &mut Entries<'_, B>,
    name: &ItemList<u8>,
) -> Result<OperationResult, AllocError>
    ensures { IfOk result (λ r.
        Makes r ctx.now entries.old entries.new (spec.removed ctx.now name.now entries.old.current)) }
{
    if load_data(entries, &ctx.op_source, name)?.is_none() {
        return Ok(answer(ManageDataResult::NameNotFound));
    }
    let key = LedgerKey::Data {
        account_id: ctx.op_source,
        data_name: name.copy()?,
    };
    remove_entry(entries, ctx, &key)?;
    Ok(answer(ManageDataResult::Success))
}

/// Gives the source's data with a name a value, or adds it.
fn set_value<B: Base>(
    ctx: &Ctx,
    entries: &mut Entries<'_, B>,
    name: &ItemList<u8>,
    value: &ItemList<u8>,
) -> Result<OperationResult, AllocError>
    requires seq { ctx.now.seq < last_seq }
    requires ready { AccountsAreReady entries.old.current }
    ensures { IfOk result (λ r.
        Makes r ctx.now entries.old entries.new (
        spec.valued ctx.now name.now value.now entries.old.current (
        data_entries.data_at entries.old.current ctx.now.op_source name.now))) }
{
    match load_data(entries, &ctx.op_source, name)? {
        None => add(ctx, entries, name, value),
        Some(slot) => {
            store_value(ctx, entries, name, slot, value)?;
            Ok(answer(ManageDataResult::Success))
        }
    }
}

/// Stores the data that was loaded with another value.
#[tactic(auto, unfolding(entry_slots::specs::DataEntries::with_data))]
fn store_value<B: Base>(
    ctx: &Ctx,
    entries: &mut Entries<'_, B>,
    name: &ItemList<u8>,
    slot: DataSlot,
    value: &ItemList<u8>,
) -> Result<(), AllocError>
    requires { Some slot ≡ data_entries.data_slot_at entries.old.current ctx.now.op_source name.now }
    ensures { OnOk result (
        entries.new ≡
        with_current entries.old (
        data_entries.with_data entries.old.current ctx.now.op_source name.now (spec.with_value value.now))) }
{
    let mut slot = slot;
    slot.data_entry.data_value = value.copy()?;
    store_data(entries, slot)
}

/// Adds data, for which the source or its open sponsor pays.
fn add<B: Base>(
    ctx: &Ctx,
    entries: &mut Entries<'_, B>,
    name: &ItemList<u8>,
    value: &ItemList<u8>,
) -> Result<OperationResult, AllocError>
    requires seq { ctx.now.seq < last_seq }
    requires ready { AccountsAreReady entries.old.current }
    ensures { IfOk result (λ r.
        Makes r ctx.now entries.old entries.new (
        spec.added ctx.now name.now value.now entries.old.current)) }
{
    let entry = new_data(ctx, name, value)?;
    match add_entry(entries, ctx, &ctx.op_source, entry) {
        Ok(()) => Ok(answer(ManageDataResult::Success)),
        Err(AddFault::NoMemory) => Err(AllocError),
        Err(fault) => Ok(fault_result(fault, answer(ManageDataResult::LowReserve))),
    }
}

/// The entry of new data.
fn new_data(ctx: &Ctx, name: &ItemList<u8>, value: &ItemList<u8>) -> Result<LedgerEntry, AllocError>
    requires { ctx.now.seq < last_seq }
    ensures value { IfOk result (λ entry. entry ≡ spec.new_data ctx.now name.now value.now) }
    ensures ready { IfOk result (λ entry.
        (m : AMap) → IsReady m ctx.now.op_source → AreReady ctx.now.op_source entry.body m) }
{
    Ok(LedgerEntry {
        last_modified_ledger_seq: ctx.seq + 1,
        body: LedgerEntryBody::Data(DataEntry {
            account_id: ctx.op_source,
            data_name: name.copy()?,
            data_value: value.copy()?,
        }),
        ext: None,
    })
}
