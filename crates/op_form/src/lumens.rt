//! Lumens that accounts give and take.

ghost use Rattle.std.specs.Prelude.{◌≡◌, ◌+ℤ◌, ◌-ℤ◌, ◌≤ℤ◌, pos, Some, IfOk, OnOk};
ghost use Rattle.entry_map.specs.EntryMap.{put};
ghost use Rattle.entry_map.specs.Undo.{with_current};
ghost use Rattle.entry_slots.specs.Accounts as accounts;
ghost use Rattle.reserve_rules.specs.Reserve.{greatest_i64};
ghost use Rattle.sponsor_rules.specs.Keeping as keeping;
ghost use Rattle.op_form.specs.Lumens as spec;
ghost use Rattle.op_form.specs.Premises.{IsInRangeAt};

use entry_map::{Base, Entries};
use entry_slots::{AccountSlot, load_account, store_account};
use ledger_types::AccountId;
use reserve_rules::{available, room};
use sponsor_rules::Ctx;
use std::alloc::AllocError;

/// Takes an amount of lumens from an account, in stroops. It answers false, and nothing has changed, exactly where less
/// is available, or there is no such account.
pub fn debit_lumens<B: Base>(
    entries: &mut Entries<'_, B>,
    ctx: &Ctx,
    id: &AccountId,
    amount: i64,
) -> Result<bool, AllocError>
    requires amount { pos 0 ≤ℤ amount }
    requires range { IsInRangeAt entries.old.current id.now }
    ensures given { IfOk result (λ paid.
        spec.Gives paid entries.old entries.new
        (spec.map_after_lumens_debit ctx.now id.now amount entries.old.current)) }
    ensures others { OnOk result (keeping.ChangesAtMost (Some id.now) entries.old.current entries.new.current) }
{
    let Some(slot) = load_account(entries, id)? else {
        return Ok(false);
    };
    if available(&slot.account, ctx.base_reserve) < i128::from(amount) {
        return Ok(false);
    }
    store_less(entries, id, slot, amount)?;
    Ok(true)
}

/// Stores the account that was loaded with an amount less.
#[tactic(auto, unfolding(entry_slots::specs::Accounts::with_account))]
fn store_less<B: Base>(
    entries: &mut Entries<'_, B>,
    id: &AccountId,
    slot: AccountSlot,
    amount: i64,
) -> Result<(), AllocError>
    requires loaded { Some slot ≡ accounts.account_slot_at entries.old.current id.now }
    requires named { slot.account.account_id ≡ id.now }
    requires amount { pos 0 ≤ℤ amount }
    requires balance { pos 0 ≤ℤ slot.account.balance }
    ensures stored { OnOk result (
        entries.new ≡
        with_current entries.old (
        accounts.with_account entries.old.current id.now (spec.with_less_lumens amount))) }
    ensures others { OnOk result (keeping.ChangesAtMost (Some id.now) entries.old.current entries.new.current) }
{
    let mut slot = slot;
    slot.account.balance = less(slot.account.balance, amount);
    store_beside(entries, id, slot)
}

/// A balance less an amount.
fn less(balance: i64, amount: i64) -> i64
    requires balance { pos 0 ≤ℤ balance }
    requires amount { pos 0 ≤ℤ amount }
    ensures { result ≡ balance -ℤ amount }
{
    balance - amount
}

/// Gives an amount of lumens to an account, in stroops. It answers false, and nothing has changed, exactly where the
/// account has less room, or there is no such account.
pub fn credit_lumens<B: Base>(
    entries: &mut Entries<'_, B>,
    id: &AccountId,
    amount: i64,
) -> Result<bool, AllocError>
    requires amount { pos 0 ≤ℤ amount }
    requires range { IsInRangeAt entries.old.current id.now }
    ensures taken { IfOk result (λ taken.
        spec.Gives taken entries.old entries.new (spec.map_after_lumens_credit id.now amount entries.old.current)) }
    ensures others { OnOk result (keeping.ChangesAtMost (Some id.now) entries.old.current entries.new.current) }
{
    let Some(slot) = load_account(entries, id)? else {
        return Ok(false);
    };
    let room = room(&slot.account);
    if room < amount {
        return Ok(false);
    }
    store_more(entries, id, slot, amount, room)?;
    Ok(true)
}

/// Stores the account that was loaded with an amount more.
#[tactic(auto, unfolding(entry_slots::specs::Accounts::with_account))]
fn store_more<B: Base>(
    entries: &mut Entries<'_, B>,
    id: &AccountId,
    slot: AccountSlot,
    amount: i64,
    room: i64,
) -> Result<(), AllocError>
    requires loaded { Some slot ≡ accounts.account_slot_at entries.old.current id.now }
    requires named { slot.account.account_id ≡ id.now }
    requires amount { pos 0 ≤ℤ amount }
    requires balance { pos 0 ≤ℤ slot.account.balance }
    requires fits { (slot.account.balance +ℤ room) ≤ℤ greatest_i64 }
    requires room { amount ≤ℤ room }
    ensures stored { OnOk result (
        entries.new ≡
        with_current entries.old (
        accounts.with_account entries.old.current id.now (spec.with_more_lumens amount))) }
    ensures others { OnOk result (keeping.ChangesAtMost (Some id.now) entries.old.current entries.new.current) }
{
    let mut slot = slot;
    slot.account.balance = more(slot.account.balance, amount, room);
    store_beside(entries, id, slot)
}

/// A balance and an amount that it has room for.
fn more(balance: i64, amount: i64, room: i64) -> i64
    requires amount { pos 0 ≤ℤ amount }
    requires balance { pos 0 ≤ℤ balance }
    requires fits { (balance +ℤ room) ≤ℤ greatest_i64 }
    requires room { amount ≤ℤ room }
    ensures { result ≡ balance +ℤ amount }
{
    balance + amount
}

/// Stores an account. No other account changes.
fn store_beside<B: Base>(
    entries: &mut Entries<'_, B>,
    id: &AccountId,
    slot: AccountSlot,
) -> Result<(), AllocError>
    requires { slot.account.account_id ≡ id.now }
    ensures stored { OnOk result (
        entries.new ≡ with_current entries.old (put entries.old.current (accounts.entry_of_account slot))) }
    ensures others { OnOk result (keeping.ChangesAtMost (Some id.now) entries.old.current entries.new.current) }
{
    store_account(entries, slot)
}
