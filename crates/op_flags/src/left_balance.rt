//! What revoked shares of a pool gave, left in claimable balances.

ghost use Rattle.std.specs.Prelude.{◌≡◌, ◌<◌, pos, ◌≤ℤ◌, IfOk};
ghost use Rattle.entry_map.specs.EntryMap.{EntryMap as AMap};
ghost use Rattle.sponsor_rules.specs.Adding.{AreReady};
ghost use Rattle.op_form.specs.Sequences.{last_seq};
ghost use Rattle.op_flags.specs.RevokedShares as spec;
ghost use Rattle.op_flags.specs.Outcomes as outcomes;

use crate::revoker::{Revoker, low_answer};
use entry_map::{Base, Entries};
use entry_slots::load_balance;
use hash_ids::revoke_id;
use item_list::ItemList;
use ledger_types::{
    AccountId, Asset, ClaimPredicate, ClaimableBalanceEntry, ClaimableBalanceId, Claimant, Hash,
    LedgerEntry, LedgerEntryBody,
};
use op_form::{can_be_clawed_back, flagged_ext, is_issued_by};
use op_types::OperationResult;
use sponsor_rules::{AddFault, Ctx, add_entry};
use std::alloc::AllocError;

/// What a pool's shares gave: the account whose they were, the pool, one of its assets, how much of it (at least 0),
/// and who pays the balance's reserve, who paid the line's.
#[derive(Clone, Copy)]
pub struct Given {
    pub trustor: AccountId,
    pub pool: Hash,
    pub asset: Asset,
    pub amount: i64,
    pub payer: AccountId,
}

/// The id of the balance that is left.
fn revoked_id(ctx: &Ctx, given: &Given) -> Result<ClaimableBalanceId, AllocError>
    ensures { IfOk result (λ id. id ≡ spec.revoked_id ctx.now (outcomes.given_by given.now)) }
{
    let id = revoke_id(
        ctx.sponsorships.allocator(),
        &ctx.tx_source,
        ctx.tx_seq,
        ctx.op_index,
        &given.pool,
        &given.asset,
    )?;
    Ok(ClaimableBalanceId(id))
}

/// The claimants of the balance: the account alone, at once.
fn sole_claimant(ctx: &Ctx, given: &Given) -> Result<ItemList<Claimant>, AllocError>
    ensures { IfOk result (λ claimants. claimants ≡ spec.sole_claimant given.now.trustor) }
{
    let mut claimants = ItemList::new(ctx.sponsorships.allocator());
    claimants.push(Claimant {
        destination: given.trustor,
        predicate: ClaimPredicate::Unconditional,
    })?;
    Ok(claimants)
}

/// The entry of the balance that is left.
fn revoked_balance<B: Base>(
    entries: &Entries<'_, B>,
    ctx: &Ctx,
    given: &Given,
    id: ClaimableBalanceId,
) -> Result<LedgerEntry, AllocError>
    requires seq { ctx.now.seq < last_seq }
    requires amount { pos 0 ≤ℤ given.now.amount }
    requires id { id ≡ spec.revoked_id ctx.now (outcomes.given_by given.now) }
    ensures value { IfOk result (λ entry.
        entry ≡ spec.revoked_balance ctx.now (outcomes.given_by given.now) entries.now.current) }
    ensures ready { IfOk result (λ entry. (m : AMap) → AreReady given.now.payer entry.body m) }
{
    let clawback = can_be_clawed_back(entries, &given.trustor, &given.asset)?;
    Ok(LedgerEntry {
        last_modified_ledger_seq: ctx.seq + 1,
        body: LedgerEntryBody::ClaimableBalance(ClaimableBalanceEntry {
            balance_id: id,
            claimants: sole_claimant(ctx, given)?,
            asset: given.asset,
            amount: given.amount,
            ext: flagged_ext(clawback),
        }),
        ext: None,
    })
}

/// The context, without open sponsorships: none of them pays.
fn alone(ctx: &Ctx) -> Ctx
    ensures { result ≡ spec.alone ctx.now }
{
    Ctx {
        seq: ctx.seq,
        version: ctx.version,
        base_reserve: ctx.base_reserve,
        flags: ctx.flags,
        close_time: ctx.close_time,
        tx_source: ctx.tx_source,
        tx_seq: ctx.tx_seq,
        op_index: ctx.op_index,
        op_source: ctx.op_source,
        id_pool: ctx.id_pool,
        sponsorships: ItemList::new(ctx.sponsorships.allocator()),
    }
}

/// What answers a balance that can't be added.
fn unpaid(by: Revoker, fault: AddFault) -> Result<Option<OperationResult>, AllocError>
    ensures { IfOk result (outcomes.IsUnpaid (outcomes.low_answer by) fault) }
{
    match fault {
        AddFault::NoMemory => Err(AllocError),
        AddFault::TooManySubentries => Ok(Some(OperationResult::TooManySubentries)),
        AddFault::TooManySponsoring => Ok(Some(OperationResult::TooManySponsoring)),
        AddFault::LowReserve => Ok(Some(low_answer(by))),
    }
}

/// Puts the balance, for which the payer pays, or answers why that can't be.
fn put_balance<B: Base>(
    entries: &mut Entries<'_, B>,
    ctx: &Ctx,
    by: Revoker,
    given: &Given,
    entry: LedgerEntry,
) -> Result<Option<OperationResult>, AllocError>
    requires entry { entry ≡ spec.revoked_balance ctx.now (outcomes.given_by given.now) entries.old.current }
    requires ready { (m : AMap) → AreReady given.now.payer entry.body m }
    ensures { IfOk result (λ refusal. outcomes.IsRevoked refusal entries.old entries.new (
        spec.balance_put ctx.now (outcomes.low_answer by) (outcomes.given_by given.now) entries.old.current)) }
{
    match add_entry(entries, &alone(ctx), &given.payer, entry) {
        Ok(()) => Ok(None),
        Err(fault) => unpaid(by, fault),
    }
}

/// Adds the balance, where none has its id yet, or answers why that can't be.
fn add_balance<B: Base>(
    entries: &mut Entries<'_, B>,
    ctx: &Ctx,
    by: Revoker,
    given: &Given,
) -> Result<Option<OperationResult>, AllocError>
    requires seq { ctx.now.seq < last_seq }
    requires amount { pos 0 ≤ℤ given.now.amount }
    ensures { IfOk result (λ refusal. outcomes.IsRevoked refusal entries.old entries.new (
        spec.balance_added ctx.now (outcomes.low_answer by) (outcomes.given_by given.now) entries.old.current)) }
{
    let id = revoked_id(ctx, given)?;
    if load_balance(entries, &id)?.is_some() {
        return Ok(Some(OperationResult::NotSupported));
    }
    let entry = revoked_balance(entries, ctx, given, id)?;
    put_balance(entries, ctx, by, given, entry)
}

/// Leaves what was given to the account, or answers why that can't be. Of nothing, and of what the account issues
/// itself, nothing is left.
pub fn leave<B: Base>(
    entries: &mut Entries<'_, B>,
    ctx: &Ctx,
    by: Revoker,
    given: &Given,
) -> Result<Option<OperationResult>, AllocError>
    requires seq { ctx.now.seq < last_seq }
    requires amount { pos 0 ≤ℤ given.now.amount }
    ensures { IfOk result (λ refusal. outcomes.IsRevoked refusal entries.old entries.new (
        spec.left ctx.now (outcomes.low_answer by) (outcomes.given_by given.now) entries.old.current)) }
{
    if given.amount == 0 || is_issued_by(&given.asset, &given.trustor) {
        return Ok(None);
    }
    add_balance(entries, ctx, by, given)
}
