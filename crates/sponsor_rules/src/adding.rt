//! Adding entries.

ghost use Rattle.std.specs.Prelude.{◌≡◌, ◌≤◌, Some, Ok, IfOk, OnOk};
ghost use Rattle.ledger_types.specs.Keys.{key_of};
ghost use Rattle.reserve_rules.specs.entry_map.EntryMap.{put};
ghost use Rattle.reserve_rules.specs.entry_map.Undo.{with_current};
ghost use Rattle.reserve_rules.specs.entry_slots.Accounts.{account_of_slot, entry_of_account, with_account};
ghost use Rattle.sponsor_rules.specs.Adding as spec;
ghost use Rattle.sponsor_rules.specs.Keeping as keeping;
ghost use Rattle.sponsor_rules.specs.Outcome.{IsOutcome};
ghost use Rattle.sponsor_rules.specs.Payers as payers;
ghost use Rattle.sponsor_rules.specs.Paying as paying;

use crate::charge::{Charge, charge_of};
use crate::context::Ctx;
use crate::count::Count;
use crate::counting::raise;
use crate::fault::AddFault;
use crate::owner::gain_subentry;
use crate::payers::{open_sponsor, payer_by, payer_fault};
use crate::paying::{pay_for_subentry, raise_sponsoring};
use crate::stored::{load, put_entry, store_changed};
use ledger_types::{AccountId, LedgerEntry, LedgerEntryExtensionV1};
use reserve_rules::entry_map::{Base, Entries};
use reserve_rules::entry_slots::{AccountSlot, account_slot_in, set_sponsor, store_account};
use std::alloc::AllocError;

/// Adds an entry, for which its owner or that account's open sponsor pays: the counts change, and a sponsor is recorded
/// in the entry. `owner` is the account whose open sponsorship pays: of an account that account itself, of a subentry
/// the account that has it, of a claimable balance the account that makes it. A pool is put without payer. Where it
/// answers a fault other than `NoMemory`, nothing has changed.
pub fn add_entry<B: Base>(
    entries: &mut Entries<'_, B>,
    ctx: &Ctx,
    owner: &AccountId,
    entry: LedgerEntry,
) -> Result<(), AddFault>
    requires { spec.AreReady owner.now entry.body entries.old.current }
    ensures outcome { IsOutcome result entries.old entries.new (
        spec.map_after_adding ctx.now owner.now entry entries.old.current) }
    ensures core { OnOk result (
        keeping.LeavesOtherCores (key_of entry) entries.old.current entries.new.current) }
{
    match charge_of(&entry.body) {
        Charge::Itself { owner: _ } => match account_slot_in(entry) {
            // Only an account charges itself, so this doesn't occur.
            None => Ok(()),
            Some(slot) => add_account(entries, ctx, owner, slot),
        },
        Charge::Subentry {
            owner: _,
            multiplicity,
        } => add_subentry(entries, ctx, owner, entry, multiplicity),
        Charge::Payer { multiplicity } => add_balance(entries, ctx, owner, entry, multiplicity),
        Charge::Nobody => add_pool(entries, entry),
    }
}

/// The entry with its sponsor, if it has one.
fn sponsored_entry(sponsor: Option<AccountId>, entry: LedgerEntry) -> LedgerEntry
    ensures sponsored { result ≡ spec.sponsored_entry sponsor entry }
    ensures named { key_of result ≡ key_of entry }
{
    let mut entry = entry;
    if sponsor.is_some() {
        set_sponsor(&mut entry, sponsor);
    }
    entry
}

/// Adds a pool.
fn add_pool<B: Base>(entries: &mut Entries<'_, B>, entry: LedgerEntry) -> Result<(), AddFault>
    ensures outcome { IsOutcome result entries.old entries.new (Ok (put entries.old.current entry)) }
    ensures core { OnOk result (
        keeping.LeavesOtherCores (key_of entry) entries.old.current entries.new.current) }
{
    Ok(put_entry(entries, entry)?)
}

/// Adds a line, an offer or data.
fn add_subentry<B: Base>(
    entries: &mut Entries<'_, B>,
    ctx: &Ctx,
    owner: &AccountId,
    entry: LedgerEntry,
    multiplicity: u64,
) -> Result<(), AddFault>
    requires multiplicity { multiplicity ≤ 2 }
    requires owner { payers.IsReady entries.old.current owner.now }
    ensures outcome { IsOutcome result entries.old entries.new (
        spec.map_after_adding_subentry ctx.now entry owner.now multiplicity entries.old.current) }
    ensures core { OnOk result (
        keeping.LeavesOtherCores (key_of entry) entries.old.current entries.new.current) }
{
    count_subentry(entries, ctx, owner, multiplicity)?;
    put_entry(entries, sponsored_entry(open_sponsor(ctx, owner), entry))?;
    Ok(())
}

/// Counts a line, an offer or data more for its owner, and for that account's open sponsor if it has one. So a reserve
/// is paid before it is known what will exist for it: an offer may still be filled as it comes. `multiplicity` is the
/// number of reserves, at most 2. Where it answers a fault other than `NoMemory`, nothing has changed.
pub fn count_subentry<B: Base>(
    entries: &mut Entries<'_, B>,
    ctx: &Ctx,
    owner: &AccountId,
    multiplicity: u64,
) -> Result<(), AddFault>
    requires multiplicity { multiplicity ≤ 2 }
    requires owner { payers.IsReady entries.old.current owner.now }
    ensures outcome { IsOutcome result entries.old entries.new (
        spec.map_after_counting_subentry ctx.now owner.now multiplicity entries.old.current) }
    ensures core { OnOk result (keeping.LeavesCore entries.old.current entries.new.current) }
{
    let sponsor = open_sponsor(ctx, owner);
    let slot = pay_for_subentry(entries, ctx, owner, &sponsor, multiplicity)?;
    count_for_owner(entries, multiplicity, owner, slot, &sponsor)?;
    Ok(())
}

/// Counts a subentry more for its owner. `slot` is what is under the owner's id.
fn count_for_owner<B: Base>(
    entries: &mut Entries<'_, B>,
    multiplicity: u64,
    owner: &AccountId,
    slot: Option<AccountSlot>,
    sponsor: &Option<AccountId>,
) -> Result<(), AllocError>
    requires loaded { keeping.IsLoaded entries.old.current owner.now slot }
    requires fits { keeping.FitsSubentry multiplicity (account_of_slot slot) }
    ensures counted { OnOk result (
        entries.new ≡
        with_current entries.old (
        with_account entries.old.current owner.now (paying.with_subentry multiplicity sponsor.now))) }
    ensures core { OnOk result (keeping.LeavesCore entries.old.current entries.new.current) }
{
    let Some(mut slot) = slot else {
        return Ok(());
    };
    gain_subentry(&mut slot.account, multiplicity, sponsor)?;
    store_changed(entries, owner, slot)
}

/// Adds a claimable balance.
fn add_balance<B: Base>(
    entries: &mut Entries<'_, B>,
    ctx: &Ctx,
    owner: &AccountId,
    entry: LedgerEntry,
    multiplicity: u64,
) -> Result<(), AddFault>
    ensures outcome { IsOutcome result entries.old entries.new (
        spec.map_after_adding_balance ctx.now entry (payers.payer_of ctx.now owner.now) multiplicity
        entries.old.current) }
    ensures core { OnOk result (
        keeping.LeavesOtherCores (key_of entry) entries.old.current entries.new.current) }
{
    let payer = payer_by(owner, open_sponsor(ctx, owner));
    let slot = load(entries, &payer)?;
    if let Some(fault) = payer_fault(ctx.base_reserve, &slot, multiplicity) {
        return Err(fault);
    }
    raise_sponsoring(entries, multiplicity, &payer, slot)?;
    put_entry(entries, sponsored_entry(Some(payer), entry))?;
    Ok(())
}

/// Adds an account. Without a sponsor its balance has to hold two reserves: a new account has no liabilities and no
/// counts, so what is available isn't asked.
fn add_account<B: Base>(
    entries: &mut Entries<'_, B>,
    ctx: &Ctx,
    owner: &AccountId,
    slot: AccountSlot,
) -> Result<(), AddFault>
    requires { payers.IsReadyAccount slot.account }
    ensures outcome { IsOutcome result entries.old entries.new (
        spec.map_after_adding_account ctx.now (entry_of_account slot) slot.account (
        payers.open_sponsor ctx.now owner.now) entries.old.current) }
    ensures core { OnOk result (
        keeping.LeavesOtherCores (key_of (entry_of_account slot)) entries.old.current entries.new.current) }
{
    match open_sponsor(ctx, owner) {
        Some(sponsor) => add_sponsored_account(entries, ctx, &sponsor, slot),
        None if i128::from(slot.account.balance) < 2 * i128::from(ctx.base_reserve) => {
            Err(AddFault::LowReserve)
        }
        None => Ok(put_account(entries, slot)?),
    }
}

/// Adds an account whose reserves a sponsor pays.
fn add_sponsored_account<B: Base>(
    entries: &mut Entries<'_, B>,
    ctx: &Ctx,
    sponsor: &AccountId,
    slot: AccountSlot,
) -> Result<(), AddFault>
    requires { payers.IsReadyAccount slot.account }
    ensures outcome { IsOutcome result entries.old entries.new (
        spec.map_after_adding_account ctx.now (entry_of_account slot) slot.account (Some sponsor.now)
        entries.old.current) }
    ensures core { OnOk result (
        keeping.LeavesOtherCores (key_of (entry_of_account slot)) entries.old.current entries.new.current) }
{
    let payer = load(entries, sponsor)?;
    if let Some(fault) = payer_fault(ctx.base_reserve, &payer, 2) {
        return Err(fault);
    }
    raise_sponsoring(entries, 2, sponsor, payer)?;
    let slot = sponsored_account(sponsor, slot)?;
    put_account(entries, slot)?;
    Ok(())
}

/// Puts an account's entry under its key. No other account changes.
fn put_account<B: Base>(entries: &mut Entries<'_, B>, slot: AccountSlot) -> Result<(), AllocError>
    ensures put { OnOk result (
        entries.new ≡ with_current entries.old (put entries.old.current (entry_of_account slot))) }
    ensures core { OnOk result (
        keeping.LeavesOtherCores (key_of (entry_of_account slot)) entries.old.current entries.new.current) }
{
    store_account(entries, slot)
}

/// The account's entry with its sponsor, who pays two of its reserves.
fn sponsored_account(sponsor: &AccountId, slot: AccountSlot) -> Result<AccountSlot, AllocError>
    requires { payers.IsReadyAccount slot.account }
    ensures sponsored { IfOk result (λ new.
        entry_of_account new ≡ spec.sponsored_account_entry sponsor.now (entry_of_account slot) slot.account) }
    ensures named { IfOk result (λ new. key_of (entry_of_account new) ≡ key_of (entry_of_account slot)) }
{
    let mut slot = slot;
    raise(&mut slot.account, Count::Sponsored, 2)?;
    slot.ext = Some(LedgerEntryExtensionV1 {
        sponsoring_id: Some(*sponsor),
    });
    Ok(slot)
}
