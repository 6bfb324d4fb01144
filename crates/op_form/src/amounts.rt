//! Amounts of any asset that an account gives and takes. An issuer has as much as it likes of what it issues.

ghost use Rattle.std.specs.Prelude.{◌≡◌, ◌+ℤ◌, ◌-ℤ◌, ◌≤ℤ◌, pos, Some, IfOk, OnOk};
ghost use Rattle.ledger_types.specs.declared.asset.Asset.TheVariants as asset;
ghost use Rattle.entry_map.specs.EntryMap.{put};
ghost use Rattle.entry_map.specs.Undo.{with_current};
ghost use Rattle.entry_slots.specs.Lines as lines;
ghost use Rattle.entry_slots.specs.Tests.{first_fault};
ghost use Rattle.reserve_rules.specs.Reserve as reserve;
ghost use Rattle.op_form.specs.Amounts as spec;
ghost use Rattle.op_form.specs.Premises.{BalancesAreInRange};
ghost use Rattle.op_form.specs.Steps.{IsStep};

use crate::assets::{is_issued_by, line_asset_of};
use crate::flags::is_authorized;
use crate::lumens::{credit_lumens, debit_lumens};
use entry_map::{Base, Entries};
use entry_slots::{LineSlot, load_line, store_line};
use ledger_types::{AccountId, Asset, TrustLineAsset, TrustLineEntry};
use reserve_rules::{line_available, line_room};
use sponsor_rules::Ctx;
use std::alloc::AllocError;

/// Why an account can't give an amount.
#[derive(Clone, Copy)]
pub enum DebitFault {
    /// It has no line in the asset.
    NoLine,
    /// Its line doesn't carry AUTHORIZED.
    NotAuthorized,
    /// Less is available.
    Short,
}

/// Why an account can't take an amount.
#[derive(Clone, Copy)]
pub enum CreditFault {
    /// It has no line in the asset.
    NoLine,
    /// Its line doesn't carry AUTHORIZED.
    NotAuthorized,
    /// It has less room.
    Full,
}

// ---- giving

/// Takes an amount of an asset from an account. It answers why it can't, and nothing has changed, or nothing. From an
/// issuer of the asset nothing is taken.
pub fn debit<B: Base>(
    entries: &mut Entries<'_, B>,
    ctx: &Ctx,
    id: &AccountId,
    asset: &Asset,
    amount: i64,
) -> Result<Option<DebitFault>, AllocError>
    requires amount { pos 0 ≤ℤ amount }
    requires in_range { BalancesAreInRange entries.old.current }
    ensures { IfOk result (λ fault. IsStep fault entries.old entries.new (
        spec.map_after_debit ctx.now id.now asset.now amount entries.old.current)) }
{
    match asset {
        Asset::Native => debit_native(entries, ctx, id, amount),
        _ => debit_issued(entries, id, asset, amount),
    }
}

/// Takes lumens from an account.
fn debit_native<B: Base>(
    entries: &mut Entries<'_, B>,
    ctx: &Ctx,
    id: &AccountId,
    amount: i64,
) -> Result<Option<DebitFault>, AllocError>
    requires amount { pos 0 ≤ℤ amount }
    requires in_range { BalancesAreInRange entries.old.current }
    ensures { IfOk result (λ fault. IsStep fault entries.old entries.new (
        spec.map_after_debit ctx.now id.now asset.Native amount entries.old.current)) }
{
    if debit_lumens(entries, ctx, id, amount)? {
        return Ok(None);
    }
    Ok(Some(DebitFault::Short))
}

/// Takes an amount of an issued asset from an account.
fn debit_issued<B: Base>(
    entries: &mut Entries<'_, B>,
    id: &AccountId,
    asset: &Asset,
    amount: i64,
) -> Result<Option<DebitFault>, AllocError>
    requires amount { pos 0 ≤ℤ amount }
    requires in_range { BalancesAreInRange entries.old.current }
    ensures { IfOk result (λ fault. IsStep fault entries.old entries.new (
        spec.map_after_issued_debit id.now asset.now amount entries.old.current)) }
{
    if is_issued_by(asset, id) {
        return Ok(None);
    }
    debit_line(entries, id, &line_asset_of(asset), amount)
}

/// Takes an amount from an account's line.
pub fn debit_line<B: Base>(
    entries: &mut Entries<'_, B>,
    id: &AccountId,
    held: &TrustLineAsset,
    amount: i64,
) -> Result<Option<DebitFault>, AllocError>
    requires amount { pos 0 ≤ℤ amount }
    requires in_range { BalancesAreInRange entries.old.current }
    ensures { IfOk result (λ fault. IsStep fault entries.old entries.new (
        spec.map_after_line_debit id.now held.now amount entries.old.current)) }
{
    let Some(slot) = load_line(entries, id, held)? else {
        return Ok(Some(DebitFault::NoLine));
    };
    match debit_fault(&slot.line, amount) {
        Some(fault) => Ok(Some(fault)),
        None => {
            store_less(entries, id, held, slot, amount)?;
            Ok(None)
        }
    }
}

/// Why a line can't give an amount.
fn debit_fault(line: &TrustLineEntry, amount: i64) -> Option<DebitFault>
    requires { reserve.IsLineInRange line.now }
    ensures { result ≡ first_fault (spec.line_debit_tests amount line.now) }
{
    if !is_authorized(line) {
        return Some(DebitFault::NotAuthorized);
    }
    if line_available(line) < amount {
        return Some(DebitFault::Short);
    }
    None
}

/// Stores the line that was loaded with an amount less.
#[tactic(auto, unfolding(entry_slots::specs::Lines::with_line))]
pub fn store_less<B: Base>(
    entries: &mut Entries<'_, B>,
    id: &AccountId,
    held: &TrustLineAsset,
    slot: LineSlot,
    amount: i64,
) -> Result<(), AllocError>
    requires loaded { Some slot ≡ lines.line_slot_at entries.old.current id.now held.now }
    requires amount { pos 0 ≤ℤ amount }
    requires in_range { reserve.IsLineInRange slot.line }
    requires available { amount ≤ℤ reserve.line_available slot.line }
    ensures { OnOk result (
        entries.new ≡
        with_current entries.old (
        lines.with_line entries.old.current id.now held.now (spec.with_less amount))) }
{
    let mut slot = slot;
    slot.line.balance = less(slot.line.balance, amount);
    store_line(entries, slot)
}

/// A balance less an amount.
fn less(balance: i64, amount: i64) -> i64
    requires balance { pos 0 ≤ℤ balance }
    requires amount { pos 0 ≤ℤ amount }
    ensures { result ≡ balance -ℤ amount }
{
    balance - amount
}

// ---- taking

/// Gives an amount of an asset to an account. It answers why it can't, and nothing has changed, or nothing. An issuer
/// of the asset keeps none of it.
pub fn credit<B: Base>(
    entries: &mut Entries<'_, B>,
    id: &AccountId,
    asset: &Asset,
    amount: i64,
) -> Result<Option<CreditFault>, AllocError>
    requires amount { pos 0 ≤ℤ amount }
    requires in_range { BalancesAreInRange entries.old.current }
    ensures taken { IfOk result (λ fault. IsStep fault entries.old entries.new (
        spec.map_after_credit id.now asset.now amount entries.old.current)) }
    ensures in_range { OnOk result (BalancesAreInRange entries.new.current) }
{
    match asset {
        Asset::Native => credit_native(entries, id, amount),
        _ => credit_issued(entries, id, asset, amount),
    }
}

/// Gives lumens to an account.
fn credit_native<B: Base>(
    entries: &mut Entries<'_, B>,
    id: &AccountId,
    amount: i64,
) -> Result<Option<CreditFault>, AllocError>
    requires amount { pos 0 ≤ℤ amount }
    requires in_range { BalancesAreInRange entries.old.current }
    ensures taken { IfOk result (λ fault. IsStep fault entries.old entries.new (
        spec.map_after_credit id.now asset.Native amount entries.old.current)) }
    ensures in_range { OnOk result (BalancesAreInRange entries.new.current) }
{
    if credit_lumens(entries, id, amount)? {
        return Ok(None);
    }
    Ok(Some(CreditFault::Full))
}

/// Gives an amount of an issued asset to an account.
fn credit_issued<B: Base>(
    entries: &mut Entries<'_, B>,
    id: &AccountId,
    asset: &Asset,
    amount: i64,
) -> Result<Option<CreditFault>, AllocError>
    requires amount { pos 0 ≤ℤ amount }
    requires in_range { BalancesAreInRange entries.old.current }
    ensures taken { IfOk result (λ fault. IsStep fault entries.old entries.new (
        spec.map_after_issued_credit id.now asset.now amount entries.old.current)) }
    ensures in_range { OnOk result (BalancesAreInRange entries.new.current) }
{
    if is_issued_by(asset, id) {
        return Ok(None);
    }
    credit_line(entries, id, &line_asset_of(asset), amount)
}

/// Gives an amount to an account's line.
fn credit_line<B: Base>(
    entries: &mut Entries<'_, B>,
    id: &AccountId,
    held: &TrustLineAsset,
    amount: i64,
) -> Result<Option<CreditFault>, AllocError>
    requires amount { pos 0 ≤ℤ amount }
    requires in_range { BalancesAreInRange entries.old.current }
    ensures taken { IfOk result (λ fault. IsStep fault entries.old entries.new (
        spec.map_after_line_credit id.now held.now amount entries.old.current)) }
    ensures in_range { OnOk result (BalancesAreInRange entries.new.current) }
{
    let Some(slot) = load_line(entries, id, held)? else {
        return Ok(Some(CreditFault::NoLine));
    };
    match credit_fault(&slot.line, amount) {
        Some(fault) => Ok(Some(fault)),
        None => {
            store_more(entries, id, held, slot, amount)?;
            Ok(None)
        }
    }
}

/// Why a line can't take an amount.
fn credit_fault(line: &TrustLineEntry, amount: i64) -> Option<CreditFault>
    requires { reserve.IsLineInRange line.now }
    ensures { result ≡ first_fault (spec.line_credit_tests amount line.now) }
{
    if !is_authorized(line) {
        return Some(CreditFault::NotAuthorized);
    }
    if line_room(line) < amount {
        return Some(CreditFault::Full);
    }
    None
}

/// Stores the line that was loaded with an amount more.
#[tactic(auto, unfolding(entry_slots::specs::Lines::with_line))]
fn store_more<B: Base>(
    entries: &mut Entries<'_, B>,
    id: &AccountId,
    held: &TrustLineAsset,
    slot: LineSlot,
    amount: i64,
) -> Result<(), AllocError>
    requires loaded { Some slot ≡ lines.line_slot_at entries.old.current id.now held.now }
    requires amount { pos 0 ≤ℤ amount }
    requires in_range { reserve.IsLineInRange slot.line }
    requires room { amount ≤ℤ reserve.line_room slot.line }
    requires others { BalancesAreInRange entries.old.current }
    ensures stored { OnOk result (
        entries.new ≡
        with_current entries.old (
        lines.with_line entries.old.current id.now held.now (spec.with_more amount))) }
    ensures in_range { OnOk result (BalancesAreInRange entries.new.current) }
{
    let mut slot = slot;
    slot.line.balance = more(slot.line.balance, amount, slot.line.limit);
    store_in_range(entries, slot)
}

/// Stores a line. All balances stay in their ranges.
fn store_in_range<B: Base>(entries: &mut Entries<'_, B>, slot: LineSlot) -> Result<(), AllocError>
    requires in_range { reserve.IsLineInRange slot.line }
    requires others { BalancesAreInRange entries.old.current }
    ensures stored { OnOk result (
        entries.new ≡ with_current entries.old (put entries.old.current (lines.entry_of_line slot))) }
    ensures in_range { OnOk result (BalancesAreInRange entries.new.current) }
{
    store_line(entries, slot)
}

/// A balance and an amount that fit a limit together.
fn more(balance: i64, amount: i64, limit: i64) -> i64
    requires balance { pos 0 ≤ℤ balance }
    requires amount { pos 0 ≤ℤ amount }
    requires fits { (balance +ℤ amount) ≤ℤ limit }
    ensures { result ≡ balance +ℤ amount }
{
    balance + amount
}
