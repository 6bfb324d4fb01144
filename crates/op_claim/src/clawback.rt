//! CLAWBACK.

ghost use Rattle.std.specs.Prelude.{◌≡◌, IfOk};
ghost use Rattle.entry_slots.specs.Tests.{first_fault};
ghost use Rattle.reserve_rules.specs.Reserve.{IsLineInRange};
ghost use Rattle.op_form.specs.Done.{Makes};
ghost use Rattle.op_form.specs.Premises.{BalancesAreInRange};
ghost use Rattle.op_claim.specs.Clawback as spec;

use entry_map::{Base, Entries};
use entry_slots::load_line;
use ledger_types::TrustLineEntry;
use op_form::{is_issued_by, is_line_clawback_enabled, line_asset_of, store_less};
use op_types::{ClawbackOp, ClawbackResult, OperationResult, OperationResultTr};
use reserve_rules::line_available;
use sponsor_rules::Ctx;
use std::alloc::AllocError;
use valid_values::is_valid_asset;

/// CLAWBACK: the source, which issues an asset, takes an amount of it back from a line.
pub fn clawback<B: Base>(
    op: &ClawbackOp,
    ctx: &Ctx,
    entries: &mut Entries<'_, B>,
) -> Result<OperationResult, AllocError>
    requires { BalancesAreInRange entries.old.current }
    ensures { IfOk result (λ r.
        Makes r ctx.now entries.old entries.new (spec.clawback ctx.now op.now entries.old.current)) }
{
    let from = op.from.account_id();
    if op.amount <= 0
        || !is_valid_asset(&op.asset)
        || !is_issued_by(&op.asset, &ctx.op_source)
        || from.0 == ctx.op_source.0
    {
        return Ok(answer(ClawbackResult::Malformed));
    }
    let held = line_asset_of(&op.asset);
    let Some(slot) = load_line(entries, &from, &held)? else {
        return Ok(answer(ClawbackResult::NoTrust));
    };
    match refusal(op.amount, &slot.line) {
        Some(refusal) => Ok(refusal),
        None => {
            store_less(entries, &from, &held, slot, op.amount)?;
            Ok(answer(ClawbackResult::Success))
        }
    }
}

/// What the operation answers.
fn answer(code: ClawbackResult) -> OperationResult
    ensures { result ≡ spec.answer code }
{
    OperationResult::Inner(OperationResultTr::Clawback(code))
}

/// Why an amount can't be taken back from a line.
fn refusal(amount: i64, line: &TrustLineEntry) -> Option<OperationResult>
    requires { IsLineInRange line.now }
    ensures { result ≡ first_fault (spec.line_tests amount line.now) }
{
    if !is_line_clawback_enabled(line) {
        return Some(answer(ClawbackResult::NotClawbackEnabled));
    }
    if line_available(line) < amount {
        return Some(answer(ClawbackResult::Underfunded));
    }
    None
}
