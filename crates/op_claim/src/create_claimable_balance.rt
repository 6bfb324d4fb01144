//! CREATE_CLAIMABLE_BALANCE.

ghost use Rattle.std.specs.Prelude.{◌≡◌, ◌<◌, ◌<ℤ◌, pos, IfOk};
ghost use Rattle.op_form.specs.Sequences.{last_seq};
ghost use Rattle.op_form.specs.Done.{Makes};
ghost use Rattle.op_form.specs.Premises.{BalancesAreInRange};
ghost use Rattle.op_claim.specs.CreateClaimableBalance as spec;

use crate::new_balance::{can_claw_back, new_balance, new_id};
use entry_map::{Base, Entries};
use entry_slots::load_balance;
use ledger_types::Claimant;
use op_form::{DebitFault, debit, fault_result};
use op_types::{
    CreateClaimableBalanceOp, CreateClaimableBalanceResult, OperationResult, OperationResultTr,
};
use sponsor_rules::{AddFault, Ctx, add_entry};
use std::alloc::AllocError;
use valid_values::{is_valid_asset, is_valid_predicate};

/// CREATE_CLAIMABLE_BALANCE: sets an amount of the source's aside for claimants.
pub fn create_claimable_balance<B: Base>(
    op: &CreateClaimableBalanceOp,
    ctx: &Ctx,
    entries: &mut Entries<'_, B>,
) -> Result<OperationResult, AllocError>
    requires seq { ctx.now.seq < last_seq }
    requires in_range { BalancesAreInRange entries.old.current }
    ensures { IfOk result (λ r.
        Makes r ctx.now entries.old entries.new (spec.create_claimable_balance ctx.now op.now entries.old.current)) }
{
    if op.amount <= 0 || !is_valid_asset(&op.asset) || are_claimants_bad(op.claimants.as_slice()) {
        return Ok(answer(CreateClaimableBalanceResult::Malformed));
    }
    if load_balance(entries, &new_id(ctx)?)?.is_some() {
        return Ok(OperationResult::NotSupported);
    }
    give_and_add(op, ctx, entries)
}

/// What the operation answers.
fn answer(code: CreateClaimableBalanceResult) -> OperationResult
    ensures { result ≡ spec.answer code }
{
    OperationResult::Inner(OperationResultTr::CreateClaimableBalance(code))
}

/// Whether a destination is among claimants.
fn has_destination(claimants: &[Claimant], claimant: &Claimant) -> bool
    ensures { result ≡ spec.has_destination claimants.now claimant.now }
{
    claimants
        .iter()
        .any(|other| claimant.destination.0 == other.destination.0)
}

/// Whether a destination occurs twice.
#[tactic(auto, unfolding(crate::specs::CreateClaimableBalance::has_twice))]
fn has_twice(claimants: &[Claimant]) -> bool
    ensures { result ≡ spec.has_twice claimants.now }
{
    match claimants {
        [] => false,
        [first, others @ ..] => has_destination(others, first) || has_twice(others),
    }
}

/// Whether no balance may have these claimants.
fn are_claimants_bad(claimants: &[Claimant]) -> bool
    ensures { result ≡ spec.are_claimants_bad claimants.now }
{
    claimants.is_empty() || has_twice(claimants) || !are_predicates_valid(claimants)
}

/// Whether each claimant's predicate is valid.
fn are_predicates_valid(claimants: &[Claimant]) -> bool
    ensures { result ≡ spec.are_predicates_valid claimants.now }
{
    claimants
        .iter()
        .all(|claimant| is_valid_predicate(&claimant.predicate))
}

/// What a debit's fault answers.
fn debit_result(fault: DebitFault) -> OperationResult
    ensures { result ≡ spec.debit_result fault }
{
    match fault {
        DebitFault::NoLine => answer(CreateClaimableBalanceResult::NoTrust),
        DebitFault::NotAuthorized => answer(CreateClaimableBalanceResult::NotAuthorized),
        DebitFault::Short => answer(CreateClaimableBalanceResult::Underfunded),
    }
}

/// Takes the amount from the source and adds the balance, or undoes that.
fn give_and_add<B: Base>(
    op: &CreateClaimableBalanceOp,
    ctx: &Ctx,
    entries: &mut Entries<'_, B>,
) -> Result<OperationResult, AllocError>
    requires seq { ctx.now.seq < last_seq }
    requires amount { pos 0 <ℤ op.now.amount }
    requires in_range { BalancesAreInRange entries.old.current }
    ensures { IfOk result (λ r.
        Makes r ctx.now entries.old entries.new (spec.given_and_added ctx.now op.now entries.old.current)) }
{
    let can_be_clawed_back = can_claw_back(op, ctx, entries)?;
    let entry = new_balance(op, ctx, can_be_clawed_back)?;
    entries.child()?;
    if let Some(fault) = debit(entries, ctx, &ctx.op_source, &op.asset, op.amount)? {
        entries.drop_child();
        return Ok(debit_result(fault));
    }
    match add_entry(entries, ctx, &ctx.op_source, entry) {
        Ok(()) => {
            entries.commit()?;
            Ok(answer(CreateClaimableBalanceResult::Success(new_id(ctx)?)))
        }
        Err(AddFault::NoMemory) => Err(AllocError),
        Err(fault) => {
            entries.drop_child();
            Ok(fault_result(fault, answer(CreateClaimableBalanceResult::LowReserve)))
        }
    }
}
