//! Moving entries from one payer to another.

ghost use Rattle.std.specs.Prelude.{◌≡◌, ◌+◌, ◌<◌, ◌≤◌, ◌^◌, Some, OnOk};
ghost use Rattle.std.specs.FinMap.{get};
ghost use Rattle.ledger_types.specs.declared.ids.AccountId.{AccountId as AnId};
ghost use Rattle.ledger_types.specs.declared.entry.LedgerEntry.{LedgerEntry as AnEntry};
ghost use Rattle.reserve_rules.specs.entry_map.Undo.{with_current};
ghost use Rattle.reserve_rules.specs.entry_slots.Accounts.{account_of_slot, with_account};
ghost use Rattle.sponsor_rules.specs.declared.count.Count.TheVariants.{Sponsored};
ghost use Rattle.sponsor_rules.specs.Charge.{owner_of};
ghost use Rattle.sponsor_rules.specs.Counting.{count_if};
ghost use Rattle.sponsor_rules.specs.Keeping as keeping;
ghost use Rattle.sponsor_rules.specs.Moving as spec;
ghost use Rattle.sponsor_rules.specs.Outcome.{IsOutcome};
ghost use Rattle.sponsor_rules.specs.Payers as payers;
ghost use Rattle.sponsor_rules.specs.Paying as paying;

use crate::charge::{Charge, charge_of};
use crate::context::Ctx;
use crate::fault::AddFault;
use crate::owner::change_payer;
use crate::payers::payer_other_than;
use crate::paying::{exchange_payers, exchange_sponsors};
use crate::stored::store_changed;
use ledger_types::{AccountId, LedgerKey};
use reserve_rules::entry_map::{Base, Entries};
use reserve_rules::entry_slots::{AccountSlot, set_sponsor, sponsor_in};
use std::alloc::AllocError;

/// Moves the entry with a key to another payer, or to its owner where none is given: the counts of those that pay for
/// it change, and the new sponsor is recorded. A claimable balance stays as it is where no payer is given; a pool
/// always does, and so does what had no sponsor and gets none. Nothing changes where there is no such entry. Where it
/// answers a fault other than `NoMemory`, nothing has changed.
pub fn move_entry<B: Base>(
    entries: &mut Entries<'_, B>,
    ctx: &Ctx,
    key: &LedgerKey,
    payer: Option<AccountId>,
) -> Result<(), AddFault>
    requires { (entry : AnEntry) → get entries.old.current key.now ≡ Some entry →
        (owner : AnId) → owner_of entry.body ≡ Some owner → payers.IsReady entries.old.current owner }
    ensures outcome { IsOutcome result entries.old entries.new (
        spec.map_after_moving ctx.now key.now payer entries.old.current) }
    ensures core { OnOk result (keeping.LeavesCore entries.old.current entries.new.current) }
{
    let Some(entry) = entries.get(key)? else {
        return Ok(());
    };
    let old = sponsor_in(&entry.ext);
    match charge_of(&entry.body) {
        Charge::Itself { owner } => {
            let new = payer_other_than(&owner, payer);
            move_between(entries, ctx, key, &owner, 2, &old, &new)
        }
        Charge::Subentry {
            owner,
            multiplicity,
        } => {
            let new = payer_other_than(&owner, payer);
            move_between(entries, ctx, key, &owner, multiplicity, &old, &new)
        }
        Charge::Payer { multiplicity } => move_balance(
            entries,
            ctx,
            key,
            multiplicity,
            &old,
            payer,
        ),
        Charge::Nobody => Ok(()),
    }
}

/// Moves an entry that has an owner. What had no sponsor and gets none stays as it is.
fn move_between<B: Base>(
    entries: &mut Entries<'_, B>,
    ctx: &Ctx,
    key: &LedgerKey,
    owner: &AccountId,
    multiplicity: u64,
    old: &Option<AccountId>,
    new: &Option<AccountId>,
) -> Result<(), AddFault>
    requires multiplicity { multiplicity ≤ 2 }
    requires owner { payers.IsReady entries.old.current owner.now }
    ensures outcome { IsOutcome result entries.old entries.new (
        spec.map_after_moving_between ctx.now key.now owner.now multiplicity old.now new.now entries.old.current) }
    ensures core { OnOk result (keeping.LeavesCore entries.old.current entries.new.current) }
{
    if old.is_none() && new.is_none() {
        return Ok(());
    }
    let slot = exchange_payers(entries, ctx, owner, multiplicity, old, new)?;
    change_owner_payer(entries, multiplicity, owner, slot, old, new)?;
    record_sponsor(entries, key, *new)?;
    Ok(())
}

/// Another sponsor, or none, pays for something of an owner. `slot` is what is under the owner's id.
fn change_owner_payer<B: Base>(
    entries: &mut Entries<'_, B>,
    multiplicity: u64,
    owner: &AccountId,
    slot: Option<AccountSlot>,
    old: &Option<AccountId>,
    new: &Option<AccountId>,
) -> Result<(), AllocError>
    requires loaded { keeping.IsLoaded entries.old.current owner.now slot }
    requires fits { count_if Sponsored (account_of_slot slot) + multiplicity < 2 ^ 32 }
    ensures changed { OnOk result (
        entries.new ≡
        with_current entries.old (
        with_account entries.old.current owner.now (paying.with_other_payer multiplicity old.now new.now))) }
    ensures core { OnOk result (keeping.LeavesCore entries.old.current entries.new.current) }
{
    let Some(mut slot) = slot else {
        return Ok(());
    };
    change_payer(&mut slot.account, multiplicity, old, new)?;
    store_changed(entries, owner, slot)
}

/// Moves a claimable balance.
fn move_balance<B: Base>(
    entries: &mut Entries<'_, B>,
    ctx: &Ctx,
    key: &LedgerKey,
    multiplicity: u64,
    old: &Option<AccountId>,
    payer: Option<AccountId>,
) -> Result<(), AddFault>
    ensures outcome { IsOutcome result entries.old entries.new (
        spec.map_after_moving_balance ctx.now key.now multiplicity old.now payer entries.old.current) }
    ensures core { OnOk result (keeping.LeavesCore entries.old.current entries.new.current) }
{
    let Some(payer) = payer else {
        return Ok(());
    };
    exchange_sponsors(entries, ctx, multiplicity, old, &payer)?;
    record_sponsor(entries, key, Some(payer))?;
    Ok(())
}

/// Records another sponsor, or none, in the entry with a key.
#[tactic(auto, unfolding(crate::specs::Moving::map_with_sponsor))]
fn record_sponsor<B: Base>(
    entries: &mut Entries<'_, B>,
    key: &LedgerKey,
    sponsor: Option<AccountId>,
) -> Result<(), AllocError>
    ensures recorded { OnOk result (
        entries.new ≡ with_current entries.old (spec.map_with_sponsor key.now sponsor entries.old.current)) }
    ensures core { OnOk result (keeping.LeavesCore entries.old.current entries.new.current) }
{
    let Some(mut entry) = entries.get(key)? else {
        return Ok(());
    };
    set_sponsor(&mut entry, sponsor);
    entries.put(entry)
}
