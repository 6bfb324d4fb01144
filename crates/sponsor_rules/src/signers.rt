//! Adding, removing and moving signers.

ghost use Rattle.std.specs.Prelude.{◌≡◌, ◌+◌, ◌<◌, ◌^◌, OnOk};
ghost use Rattle.reserve_rules.specs.entry_map.Undo.{with_current};
ghost use Rattle.reserve_rules.specs.entry_slots.Accounts.{account_of_slot, with_account};
ghost use Rattle.sponsor_rules.specs.declared.count.Count.TheVariants.{Sponsored};
ghost use Rattle.sponsor_rules.specs.Counting.{count_if};
ghost use Rattle.sponsor_rules.specs.Keeping as keeping;
ghost use Rattle.sponsor_rules.specs.Outcome.{IsOutcome};
ghost use Rattle.sponsor_rules.specs.Payers as payers;
ghost use Rattle.sponsor_rules.specs.Signers as spec;

use crate::context::Ctx;
use crate::fault::AddFault;
use crate::owner::{change_payer, gain_subentry, lose_subentry};
use crate::payers::{open_sponsor, payer_other_than};
use crate::paying::{exchange_payers, lower_sponsoring, pay_for_subentry};
use crate::signer_edits::{insert_signer, remove_signer_at, set_signer_sponsor};
use crate::signer_index::{FoundSigner, find_signer};
use crate::stored::{load, store_changed};
use ledger_types::{AccountId, Hash, Signer, SignerKey};
use reserve_rules::entry_map::{Base, Entries};
use reserve_rules::entry_slots::AccountSlot;
use std::alloc::AllocError;

/// Adds a signer to an account, for which the account or its open sponsor pays: the counts change, the signer comes
/// after the signers at the start that have lower keys, and a sponsor is recorded at its index. Where it answers a
/// fault other than `NoMemory`, nothing has changed.
pub fn add_signer<B: Base>(
    entries: &mut Entries<'_, B>,
    ctx: &Ctx,
    account: &AccountId,
    signer: Signer,
) -> Result<(), AddFault>
    requires { payers.IsReady entries.old.current account.now }
    ensures outcome { IsOutcome result entries.old entries.new (
        spec.map_after_adding_signer ctx.now account.now signer entries.old.current) }
    ensures core { OnOk result (keeping.LeavesCore entries.old.current entries.new.current) }
{
    let sponsor = open_sponsor(ctx, account);
    let slot = pay_for_subentry(entries, ctx, account, &sponsor, 1)?;
    put_signer(entries, account, slot, signer, sponsor)?;
    Ok(())
}

/// Counts a signer for its account, and puts it among its signers. `slot` is what is under the account's id.
fn put_signer<B: Base>(
    entries: &mut Entries<'_, B>,
    account: &AccountId,
    slot: Option<AccountSlot>,
    signer: Signer,
    sponsor: Option<AccountId>,
) -> Result<(), AllocError>
    requires loaded { keeping.IsLoaded entries.old.current account.now slot }
    requires fits { keeping.FitsSubentry 1 (account_of_slot slot) }
    ensures added { OnOk result (
        entries.new ≡
        with_current entries.old (
        with_account entries.old.current account.now (spec.with_counted_signer signer sponsor))) }
    ensures core { OnOk result (keeping.LeavesCore entries.old.current entries.new.current) }
{
    let Some(mut slot) = slot else {
        return Ok(());
    };
    gain_subentry(&mut slot.account, 1, &sponsor)?;
    insert_signer(&mut slot.account, signer, sponsor)?;
    store_changed(entries, account, slot)
}

/// Removes the signer with a key from an account: the counts of the account and of the signer's sponsor fall. Nothing
/// changes where there is no such signer.
pub fn remove_signer<B: Base>(
    entries: &mut Entries<'_, B>,
    _ctx: &Ctx,
    account: &AccountId,
    key: &SignerKey,
) -> Result<(), AllocError>
    ensures removed { OnOk result (
        entries.new ≡
        with_current entries.old (spec.map_after_removing_signer account.now key.now entries.old.current)) }
    ensures low { OnOk result (keeping.RaisesNone entries.old.current entries.new.current) }
    ensures core { OnOk result (keeping.LeavesCore entries.old.current entries.new.current) }
{
    let Some(found) = find_signer(entries, account, key)? else {
        return Ok(());
    };
    lower_sponsoring(entries, 1, &found.sponsor)?;
    let slot = load(entries, account)?;
    take_signer(entries, account, slot, found)
}

/// Takes a signer out of those of its account. `slot` is what is under the account's id.
fn take_signer<B: Base>(
    entries: &mut Entries<'_, B>,
    account: &AccountId,
    slot: Option<AccountSlot>,
    found: FoundSigner,
) -> Result<(), AllocError>
    requires { keeping.IsLoaded entries.old.current account.now slot }
    ensures taken { OnOk result (
        entries.new ≡
        with_current entries.old (
        with_account entries.old.current account.now (spec.without_counted_signer found))) }
    ensures low { OnOk result (keeping.RaisesNone entries.old.current entries.new.current) }
    ensures core { OnOk result (keeping.LeavesCore entries.old.current entries.new.current) }
{
    let Some(mut slot) = slot else {
        return Ok(());
    };
    lose_subentry(&mut slot.account, 1, &found.sponsor)?;
    remove_signer_at(&mut slot.account, found.index);
    store_changed(entries, account, slot)
}

/// Removes the pre-authorised signer for the transaction with this hash from an account. Nothing changes where there is
/// none.
pub fn remove_preauth<B: Base>(
    entries: &mut Entries<'_, B>,
    ctx: &Ctx,
    account: &AccountId,
    hash: &Hash,
) -> Result<(), AllocError>
    ensures removed { OnOk result (
        entries.new ≡
        with_current entries.old (spec.map_after_removing_preauth account.now hash.now entries.old.current)) }
    ensures low { OnOk result (keeping.RaisesNone entries.old.current entries.new.current) }
    ensures core { OnOk result (keeping.LeavesCore entries.old.current entries.new.current) }
{
    remove_signer(entries, ctx, account, &SignerKey::PreAuthTx(*hash))
}

/// Moves the signer with a key to another payer, or to the account itself where none is given: the counts of those that
/// pay for it change, and the new sponsor is recorded at its index. Nothing changes where there is no such signer, nor
/// where it had no sponsor and gets none. Where it answers a fault other than `NoMemory`, nothing has changed.
pub fn move_signer<B: Base>(
    entries: &mut Entries<'_, B>,
    ctx: &Ctx,
    account: &AccountId,
    key: &SignerKey,
    payer: Option<AccountId>,
) -> Result<(), AddFault>
    requires { payers.IsReady entries.old.current account.now }
    ensures outcome { IsOutcome result entries.old entries.new (
        spec.map_after_moving_signer ctx.now account.now key.now payer entries.old.current) }
    ensures core { OnOk result (keeping.LeavesCore entries.old.current entries.new.current) }
{
    let Some(found) = find_signer(entries, account, key)? else {
        return Ok(());
    };
    let new = payer_other_than(account, payer);
    move_signer_between(entries, ctx, account, found.index, &found.sponsor, &new)
}

/// Moves the signer at an index from one sponsor to another. What had no sponsor and gets none stays as it is.
fn move_signer_between<B: Base>(
    entries: &mut Entries<'_, B>,
    ctx: &Ctx,
    account: &AccountId,
    index: usize,
    old: &Option<AccountId>,
    new: &Option<AccountId>,
) -> Result<(), AddFault>
    requires { payers.IsReady entries.old.current account.now }
    ensures outcome { IsOutcome result entries.old entries.new (
        spec.map_after_moving_signer_between ctx.now account.now index old.now new.now entries.old.current) }
    ensures core { OnOk result (keeping.LeavesCore entries.old.current entries.new.current) }
{
    if old.is_none() && new.is_none() {
        return Ok(());
    }
    let slot = exchange_payers(entries, ctx, account, 1, old, new)?;
    record_signer_sponsor(entries, account, slot, index, old, new)?;
    Ok(())
}

/// Another sponsor, or none, pays for the signer at an index. `slot` is what is under the account's id.
fn record_signer_sponsor<B: Base>(
    entries: &mut Entries<'_, B>,
    account: &AccountId,
    slot: Option<AccountSlot>,
    index: usize,
    old: &Option<AccountId>,
    new: &Option<AccountId>,
) -> Result<(), AllocError>
    requires loaded { keeping.IsLoaded entries.old.current account.now slot }
    requires fits { count_if Sponsored (account_of_slot slot) + 1 < 2 ^ 32 }
    ensures recorded { OnOk result (
        entries.new ≡
        with_current entries.old (
        with_account entries.old.current account.now (spec.with_moved_signer index old.now new.now))) }
    ensures core { OnOk result (keeping.LeavesCore entries.old.current entries.new.current) }
{
    let Some(mut slot) = slot else {
        return Ok(());
    };
    change_payer(&mut slot.account, 1, old, new)?;
    set_signer_sponsor(&mut slot.account, index, *new);
    store_changed(entries, account, slot)
}
