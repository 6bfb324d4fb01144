//! ACCOUNT_MERGE.

ghost use Rattle.std.specs.Prelude.{◌≡◌, ◌≤ℤ◌, ◌<◌, pos, IfOk, OnOk, Some};
ghost use Rattle.entry_map.specs.Undo.{with_current};
ghost use Rattle.entry_slots.specs.Tests.{first_fault};
ghost use Rattle.op_form.specs.Sequences.{last_seq};
ghost use Rattle.op_form.specs.Done.{Makes};
ghost use Rattle.op_form.specs.Premises.{AccountsAreInRange};
ghost use Rattle.op_account.specs.AccountMerge as spec;

use entry_map::{Base, Entries};
use entry_slots::{load_account, num_sponsoring};
use ledger_types::{AccountEntry, AccountId, LedgerKey, Signer};
use op_form::{credit_lumens, exists, first_seq, is_open_sponsor};
use op_types::{AccountMergeOp, AccountMergeResult, OperationResult, OperationResultTr};
use sponsor_rules::{Ctx, remove_entry, remove_signer};
use std::alloc::AllocError;

/// AUTH_IMMUTABLE_FLAG of an account.
const AUTH_IMMUTABLE: u32 = 4;

/// ACCOUNT_MERGE: gives all the source's lumens to the destination, and removes the source.
pub fn account_merge<B: Base>(
    op: &AccountMergeOp,
    ctx: &Ctx,
    entries: &mut Entries<'_, B>,
) -> Result<OperationResult, AllocError>
    requires seq { ctx.now.seq < last_seq }
    requires in_range { AccountsAreInRange entries.old.current }
    ensures { IfOk result (λ r.
        Makes r ctx.now entries.old entries.new (spec.account_merge ctx.now op.now entries.old.current)) }
{
    let destination = op.destination.account_id();
    if destination.0 == ctx.op_source.0 {
        return Ok(answer(AccountMergeResult::Malformed));
    }
    if !exists(entries, &destination)? {
        return Ok(answer(AccountMergeResult::NoAccount));
    }
    let Some(slot) = load_account(entries, &ctx.op_source)? else {
        return Ok(OperationResult::NoAccount);
    };
    match refusal(ctx, &slot.account) {
        Some(refusal) => Ok(refusal),
        None => take_and_remove(entries, ctx, op, &slot.account),
    }
}

/// What the operation answers.
fn answer(code: AccountMergeResult) -> OperationResult
    ensures { result ≡ spec.answer code }
{
    OperationResult::Inner(OperationResultTr::AccountMerge(code))
}

/// Why the source can't be merged, if it can't.
fn refusal(ctx: &Ctx, account: &AccountEntry) -> Option<OperationResult>
    requires { ctx.now.seq < last_seq }
    ensures { result ≡ first_fault (spec.source_tests ctx.now account.now) }
{
    if account.flags & AUTH_IMMUTABLE != 0 {
        return Some(answer(AccountMergeResult::ImmutableSet));
    }
    if account.num_sub_entries as usize != account.signers.len() {
        return Some(answer(AccountMergeResult::HasSubEntries));
    }
    if first_seq(ctx) <= account.seq_num {
        return Some(answer(AccountMergeResult::SeqnumTooFar));
    }
    if num_sponsoring(account) != 0 || is_open_sponsor(ctx, &ctx.op_source) {
        return Some(answer(AccountMergeResult::IsSponsor));
    }
    None
}

/// Gives the balance to the destination and removes the source.
fn take_and_remove<B: Base>(
    entries: &mut Entries<'_, B>,
    ctx: &Ctx,
    op: &AccountMergeOp,
    account: &AccountEntry,
) -> Result<OperationResult, AllocError>
    requires balance { pos 0 ≤ℤ account.now.balance }
    requires in_range { AccountsAreInRange entries.old.current }
    ensures { IfOk result (λ r.
        Makes r ctx.now entries.old entries.new (
        spec.taken_and_removed ctx.now op.now account.now entries.old.current)) }
{
    if !credit_lumens(entries, &op.destination.account_id(), account.balance)? {
        return Ok(answer(AccountMergeResult::DestFull));
    }
    remove_account(entries, ctx, &ctx.op_source, account)?;
    Ok(answer(AccountMergeResult::Success(account.balance)))
}

/// Removes an account with its signers.
fn remove_account<B: Base>(
    entries: &mut Entries<'_, B>,
    ctx: &Ctx,
    id: &AccountId,
    account: &AccountEntry,
) -> Result<(), AllocError>
    ensures { OnOk result (
        entries.new ≡
        with_current entries.old (spec.map_without_account id.now account.now entries.old.current)) }
{
    remove_signers(entries, ctx, id, account.signers.as_slice())?;
    remove_entry(entries, ctx, &LedgerKey::Account { account_id: *id })
}

/// Removes signers of an account.
#[tactic(auto, unfolding(crate::specs::AccountMerge::map_without_signers))]
fn remove_signers<B: Base>(
    entries: &mut Entries<'_, B>,
    ctx: &Ctx,
    id: &AccountId,
    signers: &[Signer],
) -> Result<(), AllocError>
    ensures { OnOk result (
        entries.new ≡
        with_current entries.old (spec.map_without_signers id.now signers.now entries.old.current)) }
{
    match signers {
        [] => Ok(()),
        [first, others @ ..] => {
            remove_signer(entries, ctx, id, &first.key)?;
            remove_signers(entries, ctx, id, others)
        }
    }
}
