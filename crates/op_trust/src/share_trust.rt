//! CHANGE_TRUST for shares of a pool.

ghost use Rattle.std.specs.Prelude.{◌≡◌, ◌+◌, ◌<◌, pos, neg_ℤ, Some, None, false, IfOk};
ghost use Rattle.std.specs.Ordering.{is_lt};
ghost use Rattle.entry_map.specs.EntryMap.{EntryMap as AMap};
ghost use Rattle.ledger_types.specs.KeyOrder.{asset_cmp};
ghost use Rattle.ledger_types.specs.declared.asset.TrustLineAsset.TheVariants as asset;
ghost use Rattle.entry_slots.specs.Lines as lines;
ghost use Rattle.entry_slots.specs.Pools.{pool_at};
ghost use Rattle.sponsor_rules.specs.reserve_rules.Reserve.{IsLineInRange};
ghost use Rattle.trade_cross.specs.legal_rules.PoolShares.{needed_line};
ghost use Rattle.trade_cross.specs.legal_rules.ShareLaws.{share_line};
ghost use Rattle.sponsor_rules.specs.Adding.{AreReady};
ghost use Rattle.sponsor_rules.specs.Payers.{IsReady};
ghost use Rattle.pool_shares.specs.Fits.{DoShareLinesFit};
ghost use Rattle.pool_shares.specs.Premises.{ArePoolsSound};
ghost use Rattle.op_form.specs.Sequences.{last_seq};
ghost use Rattle.op_form.specs.Done.{Makes};
ghost use Rattle.op_form.specs.Premises.{AccountsAreReady, BalancesAreInRange};
ghost use Rattle.op_trust.specs.ShareTrust as spec;

use crate::change_trust::{answer, is_exceeded, store_limit};
use entry_map::{Base, Entries};
use entry_slots::{LineSlot, load_line, load_pool, store_line, use_count};
use hash_ids::pool_id;
use ledger_types::{
    AccountId, Asset, Hash, LedgerEntry, LedgerEntryBody, PoolParams, TrustLineAsset,
    TrustLineEntry,
};
use op_form::fault_result;
use op_types::{ChangeTrustResult, OperationResult};
use pool_shares::{count_share_lines, put_pool, remove_share_line};
use sponsor_rules::{AddFault, Ctx, add_entry};
use std::alloc::AllocError;
use std::cmp::Ordering;
use trade_cross::{Location, location_of};
use valid_values::is_valid_asset;

/// The fee of each pool, of 10000 (LIQUIDITY_POOL_FEE_V18).
const POOL_FEE: i32 = 30;

/// AUTHORIZED_FLAG and AUTHORIZED_TO_MAINTAIN_LIABILITIES_FLAG of a trust line.
const AUTHORIZING: u32 = 3;

/// CHANGE_TRUST for shares of a pool: makes the source's line of them, gives it another limit, or removes it. A pool
/// comes with its first line, and goes with its last one.
pub fn change_share_trust<B: Base>(
    params: &PoolParams,
    limit: i64,
    ctx: &Ctx,
    entries: &mut Entries<'_, B>,
) -> Result<OperationResult, AllocError>
    requires seq { ctx.now.seq < last_seq }
    requires ready { AccountsAreReady entries.old.current }
    requires in_range { BalancesAreInRange entries.old.current }
    requires sound { ArePoolsSound entries.old.current }
    ensures { IfOk result (λ r.
        Makes r ctx.now entries.old entries.new (spec.share_trust ctx.now params.now limit entries.old.current)) }
{
    if limit < 0 || is_pool_bad(params) {
        return Ok(answer(ChangeTrustResult::Malformed));
    }
    let pool = pool_id(
        ctx.sponsorships.allocator(),
        &params.asset_a,
        &params.asset_b,
    )?;
    if is_taken(entries, params, &pool)? {
        return Ok(OperationResult::NotSupported);
    }
    match load_line(entries, &ctx.op_source, &TrustLineAsset::PoolShare(pool))? {
        Some(slot) => change_share(params, &pool, limit, ctx, entries, slot),
        None => make_share(params, &pool, limit, ctx, entries),
    }
}

/// Whether a pool that is asked for can't be one: its assets aren't valid or not in their order, or its fee is another
/// one.
fn is_pool_bad(params: &PoolParams) -> bool
    ensures { result ≡ spec.is_pool_bad params.now }
{
    !is_valid_asset(&params.asset_a)
        || !is_valid_asset(&params.asset_b)
        || !is_below(&params.asset_a, &params.asset_b)
        || params.fee != POOL_FEE
}

/// Whether an asset is below another one in the order of keys.
fn is_below(a: &Asset, b: &Asset) -> bool
    ensures { result ≡ is_lt (asset_cmp a.now b.now) }
{
    match a.cmp(b) {
        Ordering::Less => true,
        _ => false,
    }
}

/// Whether pools have the same assets and the same fee.
fn are_same_params(a: &PoolParams, b: &PoolParams) -> bool
    ensures { result ≡ spec.are_same_params a.now b.now }
{
    a.asset_a.is_same(&b.asset_a) && a.asset_b.is_same(&b.asset_b) && a.fee == b.fee
}

/// Whether another pool has the id.
fn is_taken<B: Base>(
    entries: &Entries<'_, B>,
    params: &PoolParams,
    pool: &Hash,
) -> Result<bool, AllocError>
    ensures { IfOk result (λ taken. taken ≡ spec.is_taken params.now (pool_at entries.now.current pool.now)) }
{
    match load_pool(entries, pool)? {
        None => Ok(false),
        Some(slot) => Ok(!are_same_params(&slot.pool.params, params)),
    }
}

/// Gives an existing line another limit, or removes it.
fn change_share<B: Base>(
    params: &PoolParams,
    pool: &Hash,
    limit: i64,
    ctx: &Ctx,
    entries: &mut Entries<'_, B>,
    slot: LineSlot,
) -> Result<OperationResult, AllocError>
    requires pool { pool.now ≡ spec.pool_named_by params.now }
    requires loaded { Some slot ≡ lines.line_slot_at entries.old.current ctx.now.op_source (asset.PoolShare pool.now) }
    requires in_range { IsLineInRange slot.line }
    requires counted { DoShareLinesFit (neg_ℤ (pos 1)) ctx.now.op_source pool.now params.now entries.old.current }
    ensures { IfOk result (λ r.
        Makes r ctx.now entries.old entries.new (
        spec.share_changed ctx.now params.now limit entries.old.current (Some slot.line))) }
{
    if is_exceeded(limit, &slot.line) {
        return Ok(answer(ChangeTrustResult::InvalidLimit));
    }
    if limit == 0 {
        remove_share(params, pool, ctx, entries, &slot.line)
    } else {
        limit_share(pool, limit, ctx, entries, slot)
    }
}

/// Removes a line, which pools never use, and its pool with the last one.
fn remove_share<B: Base>(
    params: &PoolParams,
    pool: &Hash,
    ctx: &Ctx,
    entries: &mut Entries<'_, B>,
    line: &TrustLineEntry,
) -> Result<OperationResult, AllocError>
    requires pool { pool.now ≡ spec.pool_named_by params.now }
    requires counted { DoShareLinesFit (neg_ℤ (pos 1)) ctx.now.op_source pool.now params.now entries.old.current }
    ensures { IfOk result (λ r.
        Makes r ctx.now entries.old entries.new (
        spec.share_removed ctx.now params.now line.now entries.old.current)) }
{
    if use_count(line) != 0 {
        return Ok(answer(ChangeTrustResult::CannotDelete));
    }
    remove_share_line(entries, ctx, &ctx.op_source, pool, params)?;
    Ok(answer(ChangeTrustResult::Success))
}

/// Gives a line another limit.
fn limit_share<B: Base>(
    pool: &Hash,
    limit: i64,
    ctx: &Ctx,
    entries: &mut Entries<'_, B>,
    slot: LineSlot,
) -> Result<OperationResult, AllocError>
    requires { Some slot ≡ lines.line_slot_at entries.old.current ctx.now.op_source (asset.PoolShare pool.now) }
    ensures { IfOk result (λ r.
        Makes r ctx.now entries.old entries.new (
        spec.share_limited ctx.now pool.now limit entries.old.current)) }
{
    store_limit(
        entries,
        &ctx.op_source,
        &TrustLineAsset::PoolShare(*pool),
        limit,
        slot,
    )?;
    Ok(answer(ChangeTrustResult::Success))
}

/// Why the line that an account needs for an asset doesn't do, if it needs one: it isn't there, or isn't authorised,
/// not even to maintain liabilities.
fn needed_fault<B: Base>(
    entries: &Entries<'_, B>,
    id: &AccountId,
    asset: &Asset,
) -> Result<Option<ChangeTrustResult>, AllocError>
    ensures { IfOk result (λ fault. spec.IsNeededFault (
        spec.needed_tests_at entries.now.current (needed_line id.now asset.now)) fault) }
{
    let Location::Line(held) = location_of(id, asset) else {
        return Ok(None);
    };
    match load_line(entries, id, &held)? {
        None => Ok(Some(ChangeTrustResult::TrustLineMissing)),
        Some(slot) if slot.line.flags & AUTHORIZING == 0 => {
            Ok(Some(ChangeTrustResult::NotAuthMaintainLiabilities))
        }
        Some(_) => Ok(None),
    }
}

/// Makes a line, and its pool where that doesn't exist.
fn add_share<B: Base>(
    params: &PoolParams,
    pool: &Hash,
    limit: i64,
    ctx: &Ctx,
    entries: &mut Entries<'_, B>,
) -> Result<OperationResult, AllocError>
    requires pool { pool.now ≡ spec.pool_named_by params.now }
    requires seq { ctx.now.seq < last_seq }
    requires ready { AccountsAreReady entries.old.current }
    requires counts { DoShareLinesFit (pos 1) ctx.now.op_source pool.now params.now entries.old.current }
    ensures { IfOk result (λ r.
        Makes r ctx.now entries.old entries.new (spec.share_added ctx.now params.now limit entries.old.current)) }
{
    entries.child()?;
    put_pool(entries, ctx.seq + 1, pool, params)?;
    match add_entry(
        entries,
        ctx,
        &ctx.op_source,
        new_share_line(pool, limit, ctx),
    ) {
        Ok(()) => {
            count_share_lines(entries, 1, &ctx.op_source, pool, params)?;
            entries.commit()?;
            Ok(answer(ChangeTrustResult::Success))
        }
        Err(AddFault::NoMemory) => Err(AllocError),
        Err(fault) => {
            entries.drop_child();
            Ok(fault_result(fault, answer(ChangeTrustResult::LowReserve)))
        }
    }
}

/// Whether a line's use count is the greatest that fits.
fn is_used_fully<B: Base>(
    entries: &Entries<'_, B>,
    id: &AccountId,
    asset: &Asset,
) -> Result<bool, AllocError>
    ensures { IfOk result (λ full.
        full ≡ spec.is_used_fully_at entries.now.current (needed_line id.now asset.now)) }
{
    let Location::Line(held) = location_of(id, asset) else {
        return Ok(false);
    };
    match load_line(entries, id, &held)? {
        None => Ok(false),
        Some(slot) => Ok(use_count(&slot.line) == i32::MAX),
    }
}

/// Whether a pool's line count is the greatest that fits.
fn is_held_fully<B: Base>(entries: &Entries<'_, B>, pool: &Hash) -> Result<bool, AllocError>
    ensures { IfOk result (λ full. full ≡ spec.is_held_fully (pool_at entries.now.current pool.now)) }
{
    match load_pool(entries, pool)? {
        None => Ok(false),
        Some(slot) => Ok(slot.pool.pool_shares_trust_line_count == i64::MAX),
    }
}

/// The entry of a new line of shares.
fn new_share_line(pool: &Hash, limit: i64, ctx: &Ctx) -> LedgerEntry
    requires { ctx.now.seq < last_seq }
    ensures value { result ≡ share_line (ctx.now.seq + 1) None ctx.now.op_source pool.now (pos 0) limit }
    ensures ready { (m : AMap) → IsReady m ctx.now.op_source → AreReady ctx.now.op_source result.body m }
{
    LedgerEntry {
        last_modified_ledger_seq: ctx.seq + 1,
        body: LedgerEntryBody::TrustLine(TrustLineEntry {
            account_id: ctx.op_source,
            asset: TrustLineAsset::PoolShare(*pool),
            balance: 0,
            limit,
            flags: 0,
            ext: None,
        }),
        ext: None,
    }
}

/// Makes the source's line of a pool's shares, for which the source or its open sponsor pays.
fn make_share<B: Base>(
    params: &PoolParams,
    pool: &Hash,
    limit: i64,
    ctx: &Ctx,
    entries: &mut Entries<'_, B>,
) -> Result<OperationResult, AllocError>
    requires pool { pool.now ≡ spec.pool_named_by params.now }
    requires seq { ctx.now.seq < last_seq }
    requires ready { AccountsAreReady entries.old.current }
    requires sound { ArePoolsSound entries.old.current }
    requires params { spec.is_pool_bad params.now ≡ false }
    ensures { IfOk result (λ r.
        Makes r ctx.now entries.old entries.new (
        spec.share_changed ctx.now params.now limit entries.old.current None)) }
{
    let id = &ctx.op_source;
    if limit == 0 {
        return Ok(answer(ChangeTrustResult::InvalidLimit));
    }
    if let Some(fault) = needed_fault(entries, id, &params.asset_a)? {
        return Ok(answer(fault));
    }
    if let Some(fault) = needed_fault(entries, id, &params.asset_b)? {
        return Ok(answer(fault));
    }
    if is_used_fully(entries, id, &params.asset_a)?
        || is_used_fully(entries, id, &params.asset_b)?
        || is_held_fully(entries, pool)?
    {
        return Ok(OperationResult::TooManySubentries);
    }
    add_share(params, pool, limit, ctx, entries)
}
