//! CLAIM_CLAIMABLE_BALANCE.

ghost use Rattle.std.specs.Prelude.{◌≡◌, ◌≤ℤ◌, pos, IfOk, OnOk};
ghost use Rattle.ledger_types.specs.declared.key.LedgerKey.TheVariants as key;
ghost use Rattle.entry_map.specs.Undo.{with_current};
ghost use Rattle.sponsor_rules.specs.Removing.{map_after_removing};
ghost use Rattle.op_form.specs.Done.{Makes};
ghost use Rattle.op_form.specs.Premises as premises;
ghost use Rattle.op_claim.specs.ClaimClaimableBalance as spec;

use crate::predicates::holds_at;
use entry_map::{Base, Entries};
use entry_slots::load_balance;
use ledger_types::{AccountId, ClaimableBalanceEntry, ClaimableBalanceId, Claimant, LedgerKey};
use op_form::{CreditFault, credit};
use op_types::{
    ClaimClaimableBalanceOp, ClaimClaimableBalanceResult, OperationResult, OperationResultTr,
};
use sponsor_rules::{Ctx, remove_entry};
use std::alloc::AllocError;

/// CLAIM_CLAIMABLE_BALANCE: the source takes an amount that was set aside for it.
pub fn claim_claimable_balance<B: Base>(
    op: &ClaimClaimableBalanceOp,
    ctx: &Ctx,
    entries: &mut Entries<'_, B>,
) -> Result<OperationResult, AllocError>
    requires in_range { premises.BalancesAreInRange entries.old.current }
    requires amounts { premises.AreAmountsLow entries.old.current }
    ensures { IfOk result (λ r.
        Makes r ctx.now entries.old entries.new (spec.claim_claimable_balance ctx.now op.now entries.old.current)) }
{
    let Some(slot) = load_balance(entries, &op.balance_id)? else {
        return Ok(answer(ClaimClaimableBalanceResult::DoesNotExist));
    };
    if !may_claim(ctx, &ctx.op_source, slot.balance.claimants.as_slice()) {
        return Ok(answer(ClaimClaimableBalanceResult::CannotClaim));
    }
    remove_and_take(op, ctx, entries, &slot.balance)
}

/// What the operation answers.
fn answer(code: ClaimClaimableBalanceResult) -> OperationResult
    ensures { result ≡ spec.answer code }
{
    OperationResult::Inner(OperationResultTr::ClaimClaimableBalance(code))
}

/// Whether an account is a claimant whose predicate holds.
fn may_claim(ctx: &Ctx, id: &AccountId, claimants: &[Claimant]) -> bool
    ensures { result ≡ spec.may_claim ctx.now id.now claimants.now }
{
    match claimants {
        [] => false,
        [first, _others @ ..] if first.destination.0 == id.0 => {
            holds_at(ctx.close_time, &first.predicate)
        }
        [_first, others @ ..] => may_claim(ctx, id, others),
    }
}

/// What a credit's fault answers.
fn credit_result(fault: CreditFault) -> OperationResult
    ensures { result ≡ spec.credit_result fault }
{
    match fault {
        CreditFault::NoLine => answer(ClaimClaimableBalanceResult::NoTrust),
        CreditFault::NotAuthorized => answer(ClaimClaimableBalanceResult::NotAuthorized),
        CreditFault::Full => answer(ClaimClaimableBalanceResult::LineFull),
    }
}

/// Removes a balance. What accounts and lines hold stays.
fn remove_balance<B: Base>(
    entries: &mut Entries<'_, B>,
    ctx: &Ctx,
    id: &ClaimableBalanceId,
) -> Result<(), AllocError>
    requires { premises.BalancesAreInRange entries.old.current }
    ensures removed { OnOk result (
        entries.new ≡
        with_current entries.old (map_after_removing (key.ClaimableBalance id.now) entries.old.current)) }
    ensures in_range { OnOk result (premises.BalancesAreInRange entries.new.current) }
{
    let key = LedgerKey::ClaimableBalance { balance_id: *id };
    remove_entry(entries, ctx, &key)
}

/// Removes the balance and gives its amount to the source, or undoes that.
fn remove_and_take<B: Base>(
    op: &ClaimClaimableBalanceOp,
    ctx: &Ctx,
    entries: &mut Entries<'_, B>,
    balance: &ClaimableBalanceEntry,
) -> Result<OperationResult, AllocError>
    requires amount { pos 0 ≤ℤ balance.now.amount }
    requires in_range { premises.BalancesAreInRange entries.old.current }
    ensures { IfOk result (λ r.
        Makes r ctx.now entries.old entries.new (
        spec.removed_and_taken ctx.now op.now balance.now entries.old.current)) }
{
    entries.child()?;
    remove_balance(entries, ctx, &op.balance_id)?;
    match credit(entries, &ctx.op_source, &balance.asset, balance.amount)? {
        Some(fault) => {
            entries.drop_child();
            Ok(credit_result(fault))
        }
        None => {
            entries.commit()?;
            Ok(answer(ClaimClaimableBalanceResult::Success))
        }
    }
}
