//! Payers that are tested, charged and released.

ghost use Rattle.std.specs.Prelude.{◌≡◌, ◌+◌, ◌<◌, ◌≤◌, ◌^◌, Some, None, OnOk, IfOk, IfErr};
ghost use Rattle.reserve_rules.specs.entry_map.Undo.{with_current};
ghost use Rattle.reserve_rules.specs.entry_slots.Accounts.{account_of_slot};
ghost use Rattle.reserve_rules.specs.entry_slots.Tests.{first_fault};
ghost use Rattle.sponsor_rules.specs.declared.count.Count.TheVariants.{Sponsoring, Sponsored};
ghost use Rattle.ledger_types.specs.declared.ids.AccountId.{AccountId as AnId};
ghost use Rattle.sponsor_rules.specs.Counting.{count_at, count_if};
ghost use Rattle.sponsor_rules.specs.Keeping as keeping;
ghost use Rattle.sponsor_rules.specs.Outcome.{IsFound};
ghost use Rattle.sponsor_rules.specs.Payers as payers;
ghost use Rattle.sponsor_rules.specs.Paying as spec;

use crate::context::Ctx;
use crate::count::Count;
use crate::counting::{lower, raise};
use crate::fault::AddFault;
use crate::payers::{is_short, payer_fault, subentry_fault};
use crate::stored::{load, still_loaded, store_changed};
use ledger_types::AccountId;
use reserve_rules::entry_map::{Base, Entries};
use reserve_rules::entry_slots::AccountSlot;
use std::alloc::AllocError;

/// A sponsor pays `multiplicity` reserves more. `slot` is what is under its id.
pub fn raise_sponsoring<B: Base>(
    entries: &mut Entries<'_, B>,
    multiplicity: u64,
    sponsor: &AccountId,
    slot: Option<AccountSlot>,
) -> Result<(), AllocError>
    requires loaded { keeping.IsLoaded entries.old.current sponsor.now slot }
    requires fits { count_if Sponsoring (account_of_slot slot) + multiplicity < 2 ^ 32 }
    ensures charged { OnOk result (
        entries.new ≡
        with_current entries.old (spec.map_after_charging multiplicity (Some sponsor.now) entries.old.current)) }
    ensures kept { OnOk result (keeping.KeepsOthers Sponsoring entries.old.current entries.new.current) }
    ensures others { OnOk result (keeping.ChangesAtMost (Some sponsor.now) entries.old.current entries.new.current) }
    ensures core { OnOk result (keeping.LeavesCore entries.old.current entries.new.current) }
{
    let Some(mut slot) = slot else {
        return Ok(());
    };
    raise(&mut slot.account, Count::Sponsoring, multiplicity)?;
    store_changed(entries, sponsor, slot)
}

/// A sponsor, if there is one, pays `multiplicity` reserves less.
pub fn lower_sponsoring<B: Base>(
    entries: &mut Entries<'_, B>,
    multiplicity: u64,
    sponsor: &Option<AccountId>,
) -> Result<(), AllocError>
    ensures released { OnOk result (
        entries.new ≡
        with_current entries.old (spec.map_after_releasing multiplicity sponsor.now entries.old.current)) }
    ensures low { OnOk result (keeping.RaisesNone entries.old.current entries.new.current) }
    ensures others { OnOk result (keeping.ChangesAtMost sponsor.now entries.old.current entries.new.current) }
    ensures core { OnOk result (keeping.LeavesCore entries.old.current entries.new.current) }
{
    match sponsor {
        None => Ok(()),
        Some(sponsor) => lower_sponsoring_of(entries, multiplicity, sponsor),
    }
}

/// A sponsor pays `multiplicity` reserves less.
fn lower_sponsoring_of<B: Base>(
    entries: &mut Entries<'_, B>,
    multiplicity: u64,
    sponsor: &AccountId,
) -> Result<(), AllocError>
    ensures released { OnOk result (
        entries.new ≡
        with_current entries.old (spec.map_after_releasing multiplicity (Some sponsor.now) entries.old.current)) }
    ensures low { OnOk result (keeping.RaisesNone entries.old.current entries.new.current) }
    ensures others { OnOk result (keeping.ChangesAtMost (Some sponsor.now) entries.old.current entries.new.current) }
    ensures core { OnOk result (keeping.LeavesCore entries.old.current entries.new.current) }
{
    let Some(mut slot) = load(entries, sponsor)? else {
        return Ok(());
    };
    lower(&mut slot.account, Count::Sponsoring, multiplicity)?;
    store_changed(entries, sponsor, slot)
}

/// Tests whether an account can have a subentry more, and charges the sponsor, if there is one. It gives what then is
/// under the owner's id.
pub fn pay_for_subentry<B: Base>(
    entries: &mut Entries<'_, B>,
    ctx: &Ctx,
    owner: &AccountId,
    sponsor: &Option<AccountId>,
    multiplicity: u64,
) -> Result<Option<AccountSlot>, AddFault>
    requires multiplicity { multiplicity ≤ 2 }
    requires sponsor { sponsor.now ≡ payers.open_sponsor ctx.now owner.now }
    requires owner { payers.IsReady entries.old.current owner.now }
    ensures refused { IfErr result (λ fault.
        IsFound fault entries.old entries.new (
        first_fault (payers.subentry_tests_at ctx.now entries.old.current owner.now multiplicity))) }
    ensures passed { OnOk result (
        first_fault (payers.subentry_tests_at ctx.now entries.old.current owner.now multiplicity) ≡ None) }
    ensures charged { OnOk result (
        entries.new ≡
        with_current entries.old (spec.map_after_charging multiplicity sponsor.now entries.old.current)) }
    ensures loaded { IfOk result (keeping.IsLoaded entries.new.current owner.now) }
    ensures fits { IfOk result (λ slot. keeping.FitsSubentry multiplicity (account_of_slot slot)) }
    ensures core { OnOk result (keeping.LeavesCore entries.old.current entries.new.current) }
{
    let slot = load(entries, owner)?;
    match sponsor {
        None => match subentry_fault(ctx.base_reserve, &slot, &slot, multiplicity) {
            Some(fault) => Err(fault),
            None => Ok(slot),
        },
        Some(sponsor) => pay_by_sponsor(entries, ctx, owner, slot, sponsor, multiplicity),
    }
}

/// Tests whether an account can have a subentry more for which another one pays, and charges that one.
fn pay_by_sponsor<B: Base>(
    entries: &mut Entries<'_, B>,
    ctx: &Ctx,
    owner: &AccountId,
    slot: Option<AccountSlot>,
    sponsor: &AccountId,
    multiplicity: u64,
) -> Result<Option<AccountSlot>, AddFault>
    requires multiplicity { multiplicity ≤ 2 }
    requires sponsor { payers.payer_of ctx.now owner.now ≡ sponsor.now }
    requires owner { payers.IsReady entries.old.current owner.now }
    requires loaded { keeping.IsLoaded entries.old.current owner.now slot }
    ensures refused { IfErr result (λ fault.
        IsFound fault entries.old entries.new (
        first_fault (payers.subentry_tests_at ctx.now entries.old.current owner.now multiplicity))) }
    ensures passed { OnOk result (
        first_fault (payers.subentry_tests_at ctx.now entries.old.current owner.now multiplicity) ≡ None) }
    ensures charged { OnOk result (
        entries.new ≡
        with_current entries.old (spec.map_after_charging multiplicity (Some sponsor.now) entries.old.current)) }
    ensures loaded { IfOk result (keeping.IsLoaded entries.new.current owner.now) }
    ensures fits { IfOk result (λ slot. keeping.FitsSubentry multiplicity (account_of_slot slot)) }
    ensures core { OnOk result (keeping.LeavesCore entries.old.current entries.new.current) }
{
    let payer = load(entries, sponsor)?;
    if let Some(fault) = subentry_fault(ctx.base_reserve, &slot, &payer, multiplicity) {
        return Err(fault);
    }
    raise_sponsoring(entries, multiplicity, sponsor, payer)?;
    Ok(still_loaded(entries, owner, slot, &Some(*sponsor))?)
}

/// Tests whether another sponsor, or the owner, can pay for something, releases the old sponsor, and charges the new
/// one. It gives what then is under the owner's id.
pub fn exchange_payers<B: Base>(
    entries: &mut Entries<'_, B>,
    ctx: &Ctx,
    owner: &AccountId,
    multiplicity: u64,
    old: &Option<AccountId>,
    new: &Option<AccountId>,
) -> Result<Option<AccountSlot>, AddFault>
    requires multiplicity { multiplicity ≤ 2 }
    requires owner { payers.IsReady entries.old.current owner.now }
    ensures refused { IfErr result (λ fault.
        IsFound fault entries.old entries.new (
        first_fault (payers.move_tests_at ctx.now entries.old.current owner.now new.now multiplicity))) }
    ensures passed { OnOk result (
        first_fault (payers.move_tests_at ctx.now entries.old.current owner.now new.now multiplicity) ≡ None) }
    ensures charged { OnOk result (
        entries.new ≡
        with_current entries.old (spec.map_after_exchange multiplicity old.now new.now entries.old.current)) }
    ensures loaded { IfOk result (keeping.IsLoaded entries.new.current owner.now) }
    ensures fits { IfOk result (λ slot. count_if Sponsored (account_of_slot slot) + multiplicity < 2 ^ 32) }
    ensures core { OnOk result (keeping.LeavesCore entries.old.current entries.new.current) }
{
    match new {
        None => release_to_owner(entries, ctx, owner, multiplicity, old),
        Some(new) => {
            exchange_sponsors(entries, ctx, multiplicity, old, new)?;
            Ok(load(entries, owner)?)
        }
    }
}

/// Tests whether the owner can pay for something itself, and releases the sponsor, if there is one.
fn release_to_owner<B: Base>(
    entries: &mut Entries<'_, B>,
    ctx: &Ctx,
    owner: &AccountId,
    multiplicity: u64,
    old: &Option<AccountId>,
) -> Result<Option<AccountSlot>, AddFault>
    requires multiplicity { multiplicity ≤ 2 }
    requires owner { payers.IsReady entries.old.current owner.now }
    ensures refused { IfErr result (λ fault.
        IsFound fault entries.old entries.new (
        first_fault (payers.move_tests_at ctx.now entries.old.current owner.now None multiplicity))) }
    ensures passed { OnOk result (
        first_fault (payers.move_tests_at ctx.now entries.old.current owner.now None multiplicity) ≡ None) }
    ensures released { OnOk result (
        entries.new ≡
        with_current entries.old (spec.map_after_releasing multiplicity old.now entries.old.current)) }
    ensures loaded { IfOk result (keeping.IsLoaded entries.new.current owner.now) }
    ensures fits { IfOk result (λ slot. count_if Sponsored (account_of_slot slot) + multiplicity < 2 ^ 32) }
    ensures core { OnOk result (keeping.LeavesCore entries.old.current entries.new.current) }
{
    let slot = load(entries, owner)?;
    if is_short(ctx.base_reserve, &slot, multiplicity) {
        return Err(AddFault::LowReserve);
    }
    lower_sponsoring(entries, multiplicity, old)?;
    Ok(still_loaded(entries, owner, slot, old)?)
}

/// Tests whether another sponsor can pay for something, releases the old one, if there was one, and charges the new
/// one.
pub fn exchange_sponsors<B: Base>(
    entries: &mut Entries<'_, B>,
    ctx: &Ctx,
    multiplicity: u64,
    old: &Option<AccountId>,
    new: &AccountId,
) -> Result<(), AddFault>
    ensures refused { IfErr result (λ fault.
        IsFound fault entries.old entries.new (
        first_fault (payers.payer_tests_at ctx.now entries.old.current new.now multiplicity))) }
    ensures passed { OnOk result (
        first_fault (payers.payer_tests_at ctx.now entries.old.current new.now multiplicity) ≡ None) }
    ensures charged { OnOk result (
        entries.new ≡
        with_current entries.old (spec.map_after_exchange multiplicity old.now (Some new.now) entries.old.current)) }
    ensures kept { OnOk result (
        (id : AnId) → count_at entries.new.current id Sponsored ≤ count_at entries.old.current id Sponsored) }
    ensures core { OnOk result (keeping.LeavesCore entries.old.current entries.new.current) }
{
    let payer = load(entries, new)?;
    if let Some(fault) = payer_fault(ctx.base_reserve, &payer, multiplicity) {
        return Err(fault);
    }
    lower_sponsoring(entries, multiplicity, old)?;
    let payer = still_loaded(entries, new, payer, old)?;
    raise_sponsoring(entries, multiplicity, new, payer)?;
    Ok(())
}
