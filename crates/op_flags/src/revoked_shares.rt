//! Shares of pools that go with an authorisation which is taken back.

ghost use Rattle.std.specs.Prelude.{◌≡◌, ◌<◌, ◌++◌, pos, neg_ℤ, ◌≤ℤ◌, Some, None, IfOk, OnOk, unsigned_abs};
ghost use Rattle.std.specs.List.{filter};
ghost use Rattle.ledger_types.specs.declared.asset.TrustLineAsset.TheVariants.{PoolShare};
ghost use Rattle.entry_map.specs.Undo.{with_current};
ghost use Rattle.entry_slots.specs.Lines.{line_slot_at};
ghost use Rattle.entry_slots.specs.Pools.{pool_at, pool_slot_at};
ghost use Rattle.trade_cross.specs.legal_rules.Owing.{AreEntriesLegal};
ghost use Rattle.op_form.specs.Sequences.{last_seq};
ghost use Rattle.pool_shares.specs.Withdrawing as withdrawing;
ghost use Rattle.op_flags.specs.Outcomes.{IsRevoked, IsPart, UnlessRefused, given_by, low_answer};
ghost use Rattle.op_flags.specs.RevokedShares as spec;

use crate::left_balance::{Given, leave};
use crate::revoker::Revoker;
use entry_map::{Base, Entries};
use entry_slots::{LineSlot, PoolSlot, load_line, load_pool, sponsor_in};
use ledger_types::{AccountId, Asset, Hash, TrustLineAsset};
use op_types::OperationResult;
use pool_shares::{Part, ShareChange, part_of, pools_held_by, remove_share_line, store_shares};
use sponsor_rules::Ctx;
use std::alloc::AllocError;

/// How a pool changes where so many shares are given back for their part.
fn given_back(shares: i64, part: Part) -> ShareChange
    requires shares { pos 0 ≤ℤ shares }
    requires a { pos 0 ≤ℤ part.a }
    requires b { pos 0 ≤ℤ part.b }
    ensures a { result.a ≡ neg_ℤ part.a }
    ensures b { result.b ≡ neg_ℤ part.b }
    ensures shares { result.shares ≡ neg_ℤ shares }
{
    ShareChange {
        a: -part.a,
        b: -part.b,
        shares: -shares,
    }
}

/// Gives all shares in a line back to their pool, and removes the line.
fn give_back<B: Base>(
    entries: &mut Entries<'_, B>,
    ctx: &Ctx,
    trustor: &AccountId,
    pool_id: &Hash,
    share: LineSlot,
    pool: PoolSlot,
) -> Result<Part, AllocError>
    requires legal { AreEntriesLegal ctx.now.id_pool entries.old.current }
    requires share { Some share ≡ line_slot_at entries.old.current trustor.now (PoolShare pool_id.now) }
    requires pool { Some pool ≡ pool_slot_at entries.old.current pool_id.now }
    ensures part { IfOk result (IsPart pool.pool share.line.balance) }
    ensures entries { OnOk result (
        entries.new ≡
        with_current entries.old (
        spec.map_without_shares trustor.now pool_id.now pool.pool share.line (
        withdrawing.part_of pool.pool share.line.balance) entries.old.current)) }
{
    let shares = share.line.balance;
    let part = part_of(&pool.pool, shares);
    let change = given_back(shares, part);
    store_shares(entries, trustor, pool_id, share, pool, change)?;
    remove_share_line(entries, ctx, trustor, pool_id, &pool.pool.params)?;
    Ok(part)
}

/// Leaves what shares gave of a pool's first asset, and then what they gave of the second, or answers why that can't
/// be.
fn leave_both<B: Base>(
    entries: &mut Entries<'_, B>,
    ctx: &Ctx,
    by: Revoker,
    a: &Given,
    b: &Given,
) -> Result<Option<OperationResult>, AllocError>
    requires seq { ctx.now.seq < last_seq }
    requires a { pos 0 ≤ℤ a.now.amount }
    requires b { pos 0 ≤ℤ b.now.amount }
    ensures { IfOk result (λ refusal. IsRevoked refusal entries.old entries.new (
        spec.both_left ctx.now (low_answer by) (given_by a.now) (given_by b.now) entries.old.current)) }
{
    if let Some(refusal) = leave(entries, ctx, by, a)? {
        return Ok(Some(refusal));
    }
    leave(entries, ctx, by, b)
}

/// Gives all shares in a line back, and leaves what they gave, or answers why that can't be.
fn revoke_loaded<B: Base>(
    entries: &mut Entries<'_, B>,
    ctx: &Ctx,
    by: Revoker,
    trustor: &AccountId,
    pool_id: &Hash,
    share: LineSlot,
    pool: PoolSlot,
) -> Result<Option<OperationResult>, AllocError>
    requires seq { ctx.now.seq < last_seq }
    requires legal { AreEntriesLegal ctx.now.id_pool entries.old.current }
    requires share { Some share ≡ line_slot_at entries.old.current trustor.now (PoolShare pool_id.now) }
    requires pool { Some pool ≡ pool_slot_at entries.old.current pool_id.now }
    ensures { IfOk result (λ refusal. IsRevoked refusal entries.old entries.new (
        spec.share_revoked_by ctx.now (low_answer by) trustor.now pool_id.now pool.pool share.line
        entries.old.current)) }
{
    let payer = sponsor_in(&share.ext).unwrap_or(*trustor);
    let params = pool.pool.params;
    let part = give_back(entries, ctx, trustor, pool_id, share, pool)?;
    let a = Given {
        trustor: *trustor,
        pool: *pool_id,
        asset: params.asset_a,
        amount: part.a,
        payer,
    };
    let b = Given {
        asset: params.asset_b,
        amount: part.b,
        ..a
    };
    leave_both(entries, ctx, by, &a, &b)
}

/// Removes an account's line of a pool's shares, if it exists, and leaves what the shares gave, or answers why that
/// can't be.
fn revoke_share<B: Base>(
    entries: &mut Entries<'_, B>,
    ctx: &Ctx,
    by: Revoker,
    trustor: &AccountId,
    pool_id: &Hash,
) -> Result<Option<OperationResult>, AllocError>
    requires seq { ctx.now.seq < last_seq }
    requires legal { AreEntriesLegal ctx.now.id_pool entries.old.current }
    ensures revoked { IfOk result (λ refusal. IsRevoked refusal entries.old entries.new (
        spec.share_revoked ctx.now (low_answer by) trustor.now pool_id.now entries.old.current)) }
    ensures legal { IfOk result (λ refusal.
        UnlessRefused refusal (AreEntriesLegal ctx.now.id_pool entries.new.current)) }
{
    let held = TrustLineAsset::PoolShare(*pool_id);
    let Some(share) = load_line(entries, trustor, &held)? else {
        return Ok(None);
    };
    let Some(pool) = load_pool(entries, pool_id)? else {
        return Ok(None);
    };
    revoke_loaded(entries, ctx, by, trustor, pool_id, share, pool)
}

/// Removes an account's lines of shares of pools, one after the other, or answers why that can't be.
fn revoke_all<B: Base>(
    entries: &mut Entries<'_, B>,
    ctx: &Ctx,
    by: Revoker,
    trustor: &AccountId,
    pools: &[Hash],
) -> Result<Option<OperationResult>, AllocError>
    requires seq { ctx.now.seq < last_seq }
    requires legal { AreEntriesLegal ctx.now.id_pool entries.old.current }
    ensures { IfOk result (λ refusal. IsRevoked refusal entries.old entries.new (
        spec.all_revoked ctx.now (low_answer by) trustor.now pools.now entries.old.current)) }
{
    for pool_id in pools {
        if let Some(refusal) = revoke_share(entries, ctx, by, trustor, pool_id)? {
            return Ok(Some(refusal));
        }
    }
    Ok(None)
}

/// Whether a pool exists and has an asset.
fn has_asset<B: Base>(
    entries: &Entries<'_, B>,
    asset: &Asset,
    pool_id: &Hash,
) -> Result<bool, AllocError>
    ensures { IfOk result (λ has. has ≡ spec.has_asset asset.now (pool_at entries.now.current pool_id.now)) }
{
    match load_pool(entries, pool_id)? {
        None => Ok(false),
        Some(slot) => {
            let params = slot.pool.params;
            Ok(params.asset_a.is_same(asset) || params.asset_b.is_same(asset))
        }
    }
}

/// Appends those of some pools that have an asset.
fn push_with_asset<B: Base>(
    found: &mut Vec<Hash>,
    entries: &Entries<'_, B>,
    asset: &Asset,
    pools: &[Hash],
) -> Result<(), AllocError>
    ensures { OnOk result (
        found.new.items ≡
        found.old.items ++ filter (λ id. spec.has_asset asset.now (pool_at entries.now.current id)) pools.now) }
{
    match pools {
        [] => Ok(()),
        [first, others @ ..] => {
            if has_asset(entries, asset, first)? {
                found.push(*first)?;
            }
            push_with_asset(found, entries, asset, others)
        }
    }
}

/// Removes an account's lines of shares of pools that have an asset, in rising order of their pools' ids, and leaves
/// what the shares gave; or answers why that can't be.
#[tactic(auto, unfolding(crate::specs::RevokedShares::shares_revoked))]
pub fn revoke_shares<B: Base>(
    entries: &mut Entries<'_, B>,
    ctx: &Ctx,
    by: Revoker,
    trustor: &AccountId,
    asset: &Asset,
) -> Result<Option<OperationResult>, AllocError>
    requires seq { ctx.now.seq < last_seq }
    requires legal { AreEntriesLegal ctx.now.id_pool entries.old.current }
    ensures { IfOk result (λ refusal. IsRevoked refusal entries.old entries.new (
        spec.shares_revoked ctx.now (low_answer by) trustor.now asset.now entries.old.current)) }
{
    let alloc = ctx.sponsorships.allocator();
    let held = pools_held_by(alloc, entries, trustor)?;
    let mut pools = Vec::new(alloc);
    push_with_asset(&mut pools, entries, asset, &held)?;
    revoke_all(entries, ctx, by, trustor, &pools)
}
