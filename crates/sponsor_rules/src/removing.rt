//! Removing entries.

ghost use Rattle.std.specs.Prelude.{◌≡◌, OnOk, Some};
ghost use Rattle.std.specs.FinMap.{get};
ghost use Rattle.ledger_types.specs.Keys.{key_of};
ghost use Rattle.reserve_rules.specs.entry_map.Undo.{with_current};
ghost use Rattle.reserve_rules.specs.entry_slots.Accounts.{with_account};
ghost use Rattle.sponsor_rules.specs.Keeping as keeping;
ghost use Rattle.sponsor_rules.specs.Paying as paying;
ghost use Rattle.sponsor_rules.specs.Removing as spec;

use crate::charge::{Charge, charge_of};
use crate::context::Ctx;
use crate::owner::lose_subentry;
use crate::paying::lower_sponsoring;
use crate::stored::{erase_entry, erase_offer, load, store_changed};
use ledger_types::{AccountId, LedgerEntry, LedgerEntryBody, LedgerKey};
use reserve_rules::entry_map::{Base, Entries};
use reserve_rules::entry_slots::sponsor_in;
use std::alloc::AllocError;

/// Removes the entry with a key: the counts of its sponsor, and of a subentry's owner, fall. Nothing changes where
/// there is no such entry.
pub fn remove_entry<B: Base>(
    entries: &mut Entries<'_, B>,
    _ctx: &Ctx,
    key: &LedgerKey,
) -> Result<(), AllocError>
    ensures removed { OnOk result (
        entries.new ≡ with_current entries.old (spec.map_after_removing key.now entries.old.current)) }
    ensures low { OnOk result (keeping.RaisesNone entries.old.current entries.new.current) }
    ensures core { OnOk result (keeping.LeavesOtherCores key.now entries.old.current entries.new.current) }
{
    let Some(entry) = entries.get(key)? else {
        return Ok(());
    };
    remove_found(entries, key, &entry)
}

/// Removes the entry under its key, which is known: the counts of its sponsor, and of a subentry's owner, fall.
pub fn remove_found<B: Base>(
    entries: &mut Entries<'_, B>,
    key: &LedgerKey,
    entry: &LedgerEntry,
) -> Result<(), AllocError>
    requires found { get entries.old.current key.now ≡ Some entry.now }
    requires keyed { key_of entry.now ≡ key.now }
    ensures removed { OnOk result (
        entries.new ≡ with_current entries.old (spec.map_after_removing key.now entries.old.current)) }
    ensures low { OnOk result (keeping.RaisesNone entries.old.current entries.new.current) }
    ensures core { OnOk result (keeping.LeavesOtherCores key.now entries.old.current entries.new.current) }
{
    remove_charge(entries, charge_of(&entry.body), &sponsor_in(&entry.ext))?;
    match &entry.body {
        LedgerEntryBody::Offer(offer) => erase_offer(entries, key, offer),
        _ => erase_entry(entries, key),
    }
}

/// Lowers what a thing has added to counts: its sponsor's, and its owner's where it is a subentry. An account's own
/// counts go with it.
fn remove_charge<B: Base>(
    entries: &mut Entries<'_, B>,
    charge: Charge,
    sponsor: &Option<AccountId>,
) -> Result<(), AllocError>
    ensures released { OnOk result (
        entries.new ≡ with_current entries.old (spec.map_without_charge charge sponsor.now entries.old.current)) }
    ensures low { OnOk result (keeping.RaisesNone entries.old.current entries.new.current) }
    ensures core { OnOk result (keeping.LeavesCore entries.old.current entries.new.current) }
{
    match charge {
        Charge::Itself { owner: _ } => lower_sponsoring(entries, 2, sponsor),
        Charge::Subentry {
            owner,
            multiplicity,
        } => discount_subentry(entries, multiplicity, &owner, sponsor),
        Charge::Payer { multiplicity } => lower_sponsoring(entries, multiplicity, sponsor),
        Charge::Nobody => Ok(()),
    }
}

/// Counts a line, an offer or data less for its owner and for its sponsor, if it has one. `multiplicity` is the number
/// of reserves.
pub fn discount_subentry<B: Base>(
    entries: &mut Entries<'_, B>,
    multiplicity: u64,
    owner: &AccountId,
    sponsor: &Option<AccountId>,
) -> Result<(), AllocError>
    ensures released { OnOk result (
        entries.new ≡
        with_current entries.old (spec.map_after_discounting owner.now multiplicity sponsor.now entries.old.current)) }
    ensures low { OnOk result (keeping.RaisesNone entries.old.current entries.new.current) }
    ensures core { OnOk result (keeping.LeavesCore entries.old.current entries.new.current) }
{
    lower_sponsoring(entries, multiplicity, sponsor)?;
    discount_for_owner(entries, multiplicity, owner, sponsor)
}

/// Counts a subentry less for its owner.
fn discount_for_owner<B: Base>(
    entries: &mut Entries<'_, B>,
    multiplicity: u64,
    owner: &AccountId,
    sponsor: &Option<AccountId>,
) -> Result<(), AllocError>
    ensures discounted { OnOk result (
        entries.new ≡
        with_current entries.old (
        with_account entries.old.current owner.now (paying.without_subentry multiplicity sponsor.now))) }
    ensures low { OnOk result (keeping.RaisesNone entries.old.current entries.new.current) }
    ensures core { OnOk result (keeping.LeavesCore entries.old.current entries.new.current) }
{
    let Some(mut slot) = load(entries, owner)? else {
        return Ok(());
    };
    lose_subentry(&mut slot.account, multiplicity, sponsor)?;
    store_changed(entries, owner, slot)
}
