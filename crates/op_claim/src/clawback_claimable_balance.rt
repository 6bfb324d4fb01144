//! CLAWBACK_CLAIMABLE_BALANCE.

ghost use Rattle.std.specs.Prelude.{◌≡◌, IfOk};
ghost use Rattle.op_form.specs.Done.{Makes};
ghost use Rattle.op_claim.specs.ClawbackClaimableBalance as spec;

use entry_map::{Base, Entries};
use entry_slots::load_balance;
use ledger_types::{ClaimableBalanceEntry, LedgerKey};
use op_form::{balance_flags, is_issued_by};
use op_types::{
    ClawbackClaimableBalanceOp, ClawbackClaimableBalanceResult, OperationResult, OperationResultTr,
};
use sponsor_rules::{Ctx, remove_entry};
use std::alloc::AllocError;

/// CLAIMABLE_BALANCE_CLAWBACK_ENABLED_FLAG.
const CLAWBACK_ENABLED: u32 = 1;

/// CLAWBACK_CLAIMABLE_BALANCE: the source, which issues its asset, takes a balance back.
pub fn clawback_claimable_balance<B: Base>(
    op: &ClawbackClaimableBalanceOp,
    ctx: &Ctx,
    entries: &mut Entries<'_, B>,
) -> Result<OperationResult, AllocError>
    ensures { IfOk result (λ r.
        Makes r ctx.now entries.old entries.new (
        spec.clawback_claimable_balance ctx.now op.now entries.old.current)) }
{
    let Some(slot) = load_balance(entries, &op.balance_id)? else {
        return Ok(answer(ClawbackClaimableBalanceResult::DoesNotExist));
    };
    if !is_issued_by(&slot.balance.asset, &ctx.op_source) {
        return Ok(answer(ClawbackClaimableBalanceResult::NotIssuer));
    }
    if !is_clawback_enabled(&slot.balance) {
        return Ok(answer(ClawbackClaimableBalanceResult::NotClawbackEnabled));
    }
    let key = LedgerKey::ClaimableBalance {
        balance_id: op.balance_id,
    };
    remove_entry(entries, ctx, &key)?;
    Ok(answer(ClawbackClaimableBalanceResult::Success))
}

/// What the operation answers.
fn answer(code: ClawbackClaimableBalanceResult) -> OperationResult
    ensures { result ≡ spec.answer code }
{
    OperationResult::Inner(OperationResultTr::ClawbackClaimableBalance(code))
}

/// Whether a balance can be taken back.
fn is_clawback_enabled(balance: &ClaimableBalanceEntry) -> bool
    ensures { result ≡ spec.is_balance_clawback_enabled balance.now }
{
    balance_flags(balance) & CLAWBACK_ENABLED != 0
}
