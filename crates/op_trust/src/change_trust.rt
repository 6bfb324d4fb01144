//! CHANGE_TRUST for assets.

ghost use Rattle.std.specs.Prelude.{◌≡◌, ◌<◌, Some, None, IfOk, OnOk};
ghost use Rattle.entry_map.specs.EntryMap.{EntryMap as AMap};
ghost use Rattle.entry_map.specs.Undo.{with_current};
ghost use Rattle.entry_slots.specs.Lines as lines;
ghost use Rattle.sponsor_rules.specs.reserve_rules.Reserve.{IsLineInRange};
ghost use Rattle.sponsor_rules.specs.Adding.{AreReady};
ghost use Rattle.sponsor_rules.specs.Payers.{IsReady};
ghost use Rattle.op_form.specs.Sequences.{last_seq};
ghost use Rattle.op_form.specs.Assets as assets;
ghost use Rattle.op_form.specs.Done.{Makes};
ghost use Rattle.op_form.specs.Premises.{AccountsAreReady, BalancesAreInRange};
ghost use Rattle.op_trust.specs.ChangeTrust as spec;

use entry_map::{Base, Entries};
use entry_slots::{LineSlot, line_liabilities, load_line, store_line, use_count};
use ledger_types::{
    AccountEntry, AccountId, Asset, LedgerEntry, LedgerEntryBody, LedgerKey, TrustLineAsset,
    TrustLineEntry,
};
use op_form::{
    fault_result, is_account_clawback_enabled, is_auth_required, is_issued_by, is_native,
    line_asset_of, load_issuer,
};
use op_types::{ChangeTrustResult, OperationResult, OperationResultTr};
use sponsor_rules::{AddFault, Ctx, add_entry, remove_entry};
use std::alloc::AllocError;
use valid_values::is_valid_asset;

/// AUTHORIZED_FLAG of a trust line.
const AUTHORIZED: u32 = 1;

/// TRUSTLINE_CLAWBACK_ENABLED_FLAG of a trust line.
const TRUSTLINE_CLAWBACK_ENABLED: u32 = 4;

/// What the operation answers.
pub fn answer(code: ChangeTrustResult) -> OperationResult
    ensures { result ≡ spec.answer code }
{
    OperationResult::Inner(OperationResultTr::ChangeTrust(code))
}

/// CHANGE_TRUST for an asset: makes the source's line in it, gives it another limit, or removes it.
pub fn change_asset_trust<B: Base>(
    asset: &Asset,
    limit: i64,
    ctx: &Ctx,
    entries: &mut Entries<'_, B>,
) -> Result<OperationResult, AllocError>
    requires seq { ctx.now.seq < last_seq }
    requires ready { AccountsAreReady entries.old.current }
    requires in_range { BalancesAreInRange entries.old.current }
    ensures { IfOk result (λ r.
        Makes r ctx.now entries.old entries.new (spec.asset_trust ctx.now asset.now limit entries.old.current)) }
{
    if limit < 0
        || is_native(asset)
        || !is_valid_asset(asset)
        || is_issued_by(asset, &ctx.op_source)
    {
        return Ok(answer(ChangeTrustResult::Malformed));
    }
    match load_line(entries, &ctx.op_source, &line_asset_of(asset))? {
        Some(slot) => change_line(asset, limit, ctx, entries, slot),
        None => make_line(asset, limit, ctx, entries),
    }
}

/// Whether a limit doesn't hold a line's balance and what the account's offers would take.
pub fn is_exceeded(limit: i64, line: &TrustLineEntry) -> bool
    requires { IsLineInRange line.now }
    ensures { result ≡ spec.is_exceeded limit line.now }
{
    // The present limit holds both, so that they fit 64 bits together.
    let _limit = line.limit;
    limit < line.balance + line_liabilities(line).buying
}

/// Gives an existing line another limit, or removes it.
fn change_line<B: Base>(
    asset: &Asset,
    limit: i64,
    ctx: &Ctx,
    entries: &mut Entries<'_, B>,
    slot: LineSlot,
) -> Result<OperationResult, AllocError>
    requires loaded { Some slot ≡ lines.line_slot_at entries.old.current ctx.now.op_source
        (assets.line_asset_of asset.now) }
    requires in_range { IsLineInRange slot.line }
    ensures { IfOk result (λ r.
        Makes r ctx.now entries.old entries.new (
        spec.changed ctx.now asset.now limit entries.old.current (Some slot.line))) }
{
    if is_exceeded(limit, &slot.line) {
        return Ok(answer(ChangeTrustResult::InvalidLimit));
    }
    if limit == 0 {
        remove_line(asset, ctx, entries, &slot.line)
    } else {
        limit_line(asset, limit, ctx, entries, slot)
    }
}

/// Removes a line that pools don't use.
fn remove_line<B: Base>(
    asset: &Asset,
    ctx: &Ctx,
    entries: &mut Entries<'_, B>,
    line: &TrustLineEntry,
) -> Result<OperationResult, AllocError>
    ensures { IfOk result (λ r.
        Makes r ctx.now entries.old entries.new (spec.removed ctx.now asset.now line.now entries.old.current)) }
{
    if use_count(line) != 0 {
        return Ok(answer(ChangeTrustResult::CannotDelete));
    }
    let key = LedgerKey::TrustLine {
        account_id: ctx.op_source,
        asset: line_asset_of(asset),
    };
    remove_entry(entries, ctx, &key)?;
    Ok(answer(ChangeTrustResult::Success))
}

/// Gives a line another limit.
fn limit_line<B: Base>(
    asset: &Asset,
    limit: i64,
    ctx: &Ctx,
    entries: &mut Entries<'_, B>,
    slot: LineSlot,
) -> Result<OperationResult, AllocError>
    requires { Some slot ≡ lines.line_slot_at entries.old.current ctx.now.op_source (assets.line_asset_of asset.now) }
    ensures { IfOk result (λ r.
        Makes r ctx.now entries.old entries.new (spec.limited ctx.now asset.now limit entries.old.current)) }
{
    if load_issuer(entries, asset)?.is_none() {
        return Ok(answer(ChangeTrustResult::NoIssuer));
    }
    store_limit(entries, &ctx.op_source, &line_asset_of(asset), limit, slot)?;
    Ok(answer(ChangeTrustResult::Success))
}

/// Stores the line that was loaded with another limit.
#[tactic(auto, unfolding(entry_slots::specs::Lines::with_line))]
pub fn store_limit<B: Base>(
    entries: &mut Entries<'_, B>,
    id: &AccountId,
    held: &TrustLineAsset,
    limit: i64,
    slot: LineSlot,
) -> Result<(), AllocError>
    requires { Some slot ≡ lines.line_slot_at entries.old.current id.now held.now }
    ensures { OnOk result (
        entries.new ≡
        with_current entries.old (
        lines.with_line entries.old.current id.now held.now (spec.with_limit limit))) }
{
    let mut slot = slot;
    slot.line.limit = limit;
    store_line(entries, slot)
}

/// Makes the source's line in an asset, for which the source or its open sponsor pays.
fn make_line<B: Base>(
    asset: &Asset,
    limit: i64,
    ctx: &Ctx,
    entries: &mut Entries<'_, B>,
) -> Result<OperationResult, AllocError>
    requires seq { ctx.now.seq < last_seq }
    requires ready { AccountsAreReady entries.old.current }
    ensures { IfOk result (λ r.
        Makes r ctx.now entries.old entries.new (spec.changed ctx.now asset.now limit entries.old.current None)) }
{
    if limit == 0 {
        return Ok(answer(ChangeTrustResult::InvalidLimit));
    }
    match load_issuer(entries, asset)? {
        None => Ok(answer(ChangeTrustResult::NoIssuer)),
        Some(issuer) => add_line(asset, limit, ctx, entries, &issuer.account),
    }
}

/// Adds a line.
fn add_line<B: Base>(
    asset: &Asset,
    limit: i64,
    ctx: &Ctx,
    entries: &mut Entries<'_, B>,
    issuer: &AccountEntry,
) -> Result<OperationResult, AllocError>
    requires seq { ctx.now.seq < last_seq }
    requires ready { AccountsAreReady entries.old.current }
    ensures { IfOk result (λ r.
        Makes r ctx.now entries.old entries.new (
        spec.added ctx.now asset.now limit issuer.now entries.old.current)) }
{
    match add_entry(
        entries,
        ctx,
        &ctx.op_source,
        new_line(asset, limit, ctx, issuer),
    ) {
        Ok(()) => Ok(answer(ChangeTrustResult::Success)),
        Err(AddFault::NoMemory) => Err(AllocError),
        Err(fault) => Ok(fault_result(fault, answer(ChangeTrustResult::LowReserve))),
    }
}

/// The flags of a new line, as its issuer's flags have it.
fn new_line_flags(issuer: &AccountEntry) -> u32
    ensures { result ≡ spec.new_line_flags issuer.now }
{
    let authorized = if is_auth_required(issuer) {
        0
    } else {
        AUTHORIZED
    };
    let clawback = if is_account_clawback_enabled(issuer) {
        TRUSTLINE_CLAWBACK_ENABLED
    } else {
        0
    };
    authorized | clawback
}

/// The entry of a new line.
fn new_line(asset: &Asset, limit: i64, ctx: &Ctx, issuer: &AccountEntry) -> LedgerEntry
    requires { ctx.now.seq < last_seq }
    ensures value { result ≡ spec.new_line ctx.now asset.now limit issuer.now }
    ensures ready { (m : AMap) → IsReady m ctx.now.op_source → AreReady ctx.now.op_source result.body m }
{
    LedgerEntry {
        last_modified_ledger_seq: ctx.seq + 1,
        body: LedgerEntryBody::TrustLine(TrustLineEntry {
            account_id: ctx.op_source,
            asset: line_asset_of(asset),
            balance: 0,
            limit,
            flags: new_line_flags(issuer),
            ext: None,
        }),
        ext: None,
    }
}
