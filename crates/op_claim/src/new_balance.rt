//! The entry of a claimable balance that is made.

ghost use Rattle.std.specs.Prelude.{◌≡◌, ◌<◌, IfOk};
ghost use Rattle.entry_map.specs.EntryMap.{EntryMap as AMap};
ghost use Rattle.sponsor_rules.specs.Adding.{AreReady};
ghost use Rattle.op_form.specs.Sequences.{last_seq};
ghost use Rattle.op_claim.specs.CreateClaimableBalance as spec;

use crate::predicates::fixed_claimants;
use entry_map::{Base, Entries};
use entry_slots::load_account;
use hash_ids::balance_id;
use ledger_types::{ClaimableBalanceEntry, ClaimableBalanceId, LedgerEntry, LedgerEntryBody};
use op_form::{can_be_clawed_back, flagged_ext, is_account_clawback_enabled, is_issued_by};
use op_types::CreateClaimableBalanceOp;
use sponsor_rules::Ctx;
use std::alloc::AllocError;

/// The id of the balance that the operation makes.
pub fn new_id(ctx: &Ctx) -> Result<ClaimableBalanceId, AllocError>
    ensures { IfOk result (λ id. id ≡ spec.new_id ctx.now) }
{
    let alloc = ctx.sponsorships.allocator();
    let id = balance_id(alloc, &ctx.tx_source, ctx.tx_seq, ctx.op_index)?;
    Ok(ClaimableBalanceId(id))
}

/// Whether what the source gives can be clawed back: as its issuer says, or its own line.
pub fn can_claw_back<B: Base>(
    op: &CreateClaimableBalanceOp,
    ctx: &Ctx,
    entries: &Entries<'_, B>,
) -> Result<bool, AllocError>
    ensures { IfOk result (λ can. can ≡ spec.can_claw_back ctx.now op.now entries.now.current) }
{
    if is_issued_by(&op.asset, &ctx.op_source) {
        can_source_claw_back(ctx, entries)
    } else {
        can_be_clawed_back(entries, &ctx.op_source, &op.asset)
    }
}

/// Whether what the source issues can be clawed back.
fn can_source_claw_back<B: Base>(ctx: &Ctx, entries: &Entries<'_, B>) -> Result<bool, AllocError>
    ensures { IfOk result (λ can. can ≡ spec.is_clawback_source ctx.now entries.now.current) }
{
    match load_account(entries, &ctx.op_source)? {
        None => Ok(false),
        Some(slot) => Ok(is_account_clawback_enabled(&slot.account)),
    }
}

/// The entry of the balance that the operation makes.
pub fn new_balance(
    op: &CreateClaimableBalanceOp,
    ctx: &Ctx,
    can_be_clawed_back: bool,
) -> Result<LedgerEntry, AllocError>
    requires { ctx.now.seq < last_seq }
    ensures value { IfOk result (λ entry. entry ≡ spec.new_balance ctx.now op.now can_be_clawed_back) }
    ensures ready { IfOk result (λ entry. (m : AMap) → AreReady ctx.now.op_source entry.body m) }
{
    let alloc = ctx.sponsorships.allocator();
    Ok(LedgerEntry {
        last_modified_ledger_seq: ctx.seq + 1,
        body: LedgerEntryBody::ClaimableBalance(ClaimableBalanceEntry {
            balance_id: new_id(ctx)?,
            claimants: fixed_claimants(alloc, ctx.close_time, op.claimants.as_slice())?,
            asset: op.asset,
            amount: op.amount,
            ext: flagged_ext(can_be_clawed_back),
        }),
        ext: None,
    })
}
