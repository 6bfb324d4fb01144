//! Changes of what an account has of an asset.

ghost use Rattle.std.specs.Prelude.{◌≡◌, ◌+ℤ◌, Some, OnOk};
ghost use Rattle.ledger_types.specs.declared.key.LedgerKey.TheVariants as key;
ghost use Rattle.entry_map.specs.Undo.{with_current};
ghost use Rattle.entry_slots.specs.Accounts as accounts;
ghost use Rattle.entry_slots.specs.AccountExtensions as extensions;
ghost use Rattle.entry_slots.specs.LineExtensions as line_extensions;
ghost use Rattle.entry_slots.specs.Lines as lines;
ghost use Rattle.legal_rules.specs.Binding.{risen};
ghost use Rattle.trade_cross.specs.Locations as spec;

use crate::location::Location;
use entry_map::{Base, Entries};
use entry_slots::{
    AccountSlot, LineSlot, account_liabilities, line_liabilities, load_account, load_line,
    set_account_liabilities, set_line_liabilities, store_account, store_line,
};
use ledger_types::{AccountEntry, AccountId, Liabilities, TrustLineAsset, TrustLineEntry};
use std::alloc::AllocError;

/// By how much a balance and what is bound of it rise; each may be below 0.
#[derive(Clone, Copy)]
pub struct Change {
    pub balance: i64,
    pub selling: i64,
    pub buying: i64,
}

/// Changes what an account has of an asset, in one look and one store. An issuer has no entry to change.
pub fn change_holding<B: Base>(
    entries: &mut Entries<'_, B>,
    id: &AccountId,
    location: Location,
    change: Change,
) -> Result<(), AllocError>
    requires { spec.DoesChangeFit entries.old.current (spec.location_key id.now location) change }
    ensures { OnOk result (
        entries.new ≡
        with_current entries.old (spec.changing (spec.location_key id.now location) change entries.old.current)) }
{
    match location {
        Location::Account => change_account(entries, id, change),
        Location::Line(held) => change_line(entries, id, &held, change),
        Location::Nowhere => Ok(()),
    }
}

/// A number that rises by delta, which may be below 0.
fn sum(number: i64, delta: i64) -> i64
    requires { spec.DoesFit number delta }
    ensures { result ≡ number +ℤ delta }
{
    number + delta
}

/// Liabilities that rise.
fn risen(was: Liabilities, change: Change) -> Liabilities
    requires selling { spec.DoesFit was.selling change.selling }
    requires buying { spec.DoesFit was.buying change.buying }
    ensures { result ≡ risen change.selling change.buying was }
{
    Liabilities {
        buying: sum(was.buying, change.buying),
        selling: sum(was.selling, change.selling),
    }
}

/// Changes the account's entry, if it exists.
#[tactic(auto, unfolding(entry_slots::specs::Accounts::with_account))]
fn change_account<B: Base>(
    entries: &mut Entries<'_, B>,
    id: &AccountId,
    change: Change,
) -> Result<(), AllocError>
    requires { spec.DoesChangeFit entries.old.current (Some (key.Account id.now)) change }
    ensures { OnOk result (
        entries.new ≡
        with_current entries.old (
        accounts.with_account entries.old.current id.now (spec.changed_account change))) }
{
    let Some(slot) = load_account(entries, id)? else {
        return Ok(());
    };
    store_changed(entries, id, slot, change)
}

/// Stores the account that was loaded, changed.
#[tactic(auto, unfolding(entry_slots::specs::Accounts::with_account))]
fn store_changed<B: Base>(
    entries: &mut Entries<'_, B>,
    id: &AccountId,
    slot: AccountSlot,
    change: Change,
) -> Result<(), AllocError>
    requires loaded { Some slot ≡ accounts.account_slot_at entries.old.current id.now }
    requires fits { spec.DoSumsFit slot.account.balance (extensions.account_liabilities slot.account) change }
    ensures { OnOk result (
        entries.new ≡
        with_current entries.old (
        accounts.with_account entries.old.current id.now (spec.changed_account change))) }
{
    let mut slot = slot;
    set_account_holding(&mut slot.account, change);
    store_account(entries, slot)
}

/// Gives an account another balance and other liabilities.
fn set_account_holding(account: &mut AccountEntry, change: Change)
    requires { spec.DoSumsFit account.old.balance (extensions.account_liabilities account.old) change }
    ensures { account.new ≡ spec.changed_account change account.old }
{
    let liabilities = risen(account_liabilities(account), change);
    account.balance = sum(account.balance, change.balance);
    set_account_liabilities(account, liabilities);
}

/// Changes the account's line, if it exists.
#[tactic(auto, unfolding(entry_slots::specs::Lines::with_line))]
fn change_line<B: Base>(
    entries: &mut Entries<'_, B>,
    id: &AccountId,
    held: &TrustLineAsset,
    change: Change,
) -> Result<(), AllocError>
    requires { spec.DoesChangeFit entries.old.current (Some (key.TrustLine id.now held.now)) change }
    ensures { OnOk result (
        entries.new ≡
        with_current entries.old (
        lines.with_line entries.old.current id.now held.now (spec.changed_line change))) }
{
    let Some(slot) = load_line(entries, id, held)? else {
        return Ok(());
    };
    store_changed_line(entries, id, held, slot, change)
}

/// Stores the line that was loaded, changed.
#[tactic(auto, unfolding(entry_slots::specs::Lines::with_line))]
fn store_changed_line<B: Base>(
    entries: &mut Entries<'_, B>,
    id: &AccountId,
    held: &TrustLineAsset,
    slot: LineSlot,
    change: Change,
) -> Result<(), AllocError>
    requires loaded { Some slot ≡ lines.line_slot_at entries.old.current id.now held.now }
    requires fits { spec.DoSumsFit slot.line.balance (line_extensions.line_liabilities slot.line) change }
    ensures { OnOk result (
        entries.new ≡
        with_current entries.old (
        lines.with_line entries.old.current id.now held.now (spec.changed_line change))) }
{
    let mut slot = slot;
    set_line_holding(&mut slot.line, change);
    store_line(entries, slot)
}

/// Gives a line another balance and other liabilities.
fn set_line_holding(line: &mut TrustLineEntry, change: Change)
    requires { spec.DoSumsFit line.old.balance (line_extensions.line_liabilities line.old) change }
    ensures { line.new ≡ spec.changed_line change line.old }
{
    let liabilities = risen(line_liabilities(line), change);
    line.balance = sum(line.balance, change.balance);
    set_line_liabilities(line, liabilities);
}
