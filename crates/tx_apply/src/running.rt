//! The operations of a transaction in their order.

ghost use Rattle.std.specs.Prelude.{◌≡◌, ◌<◌, ◌+◌, ◌^◌, ◌++◌, length, IfOk, OnOk};
ghost use Rattle.entry_map.specs.Undo.{with_current};
ghost use Rattle.op_form.specs.Done.{Does};
ghost use Rattle.op_laws.specs.Underway.{IsUnderway};
ghost use Rattle.tx_apply.specs.Laws.{AreFit, CanDraw};
ghost use Rattle.tx_apply.specs.Running as spec;

use crate::any_operation::apply_operation;
use crate::signing::source_of;
use crate::success::is_success;
use entry_map::{Base, Entries};
use item_list::ItemList;
use ledger_types::AccountId;
use op_form::exists;
use op_laws::steps::transaction_laws;
use op_types::{Operation, OperationResult};
use sponsor_rules::Ctx;
use std::alloc::AllocError;

/// Applies one operation at its index. Where its source has no account, it isn't run.
fn apply_at<B: Base>(
    operation: &Operation,
    ctx: &mut Ctx,
    entries: &mut Entries<'_, B>,
    source: &AccountId,
    index: u32,
) -> Result<OperationResult, AllocError>
    requires underway { IsUnderway ctx.old entries.old.current }
    requires ids { CanDraw 1 ctx.old.id_pool }
    ensures { IfOk result (λ answer. Does answer ctx.new entries.old entries.new
        (spec.done_at ctx.old source.now index operation.now entries.old.current)) }
{
    transaction_laws();
    let own = source_of(source, operation);
    ctx.op_index = index;
    ctx.op_source = own;
    if !exists(entries, &own)? {
        return Ok(OperationResult::NoAccount);
    }
    apply_operation(operation, ctx, entries)
}

/// Applies operations in their order, from an index on. It puts their results at the end of a list, and answers whether
/// each succeeded.
#[tactic(auto, unfolding(crate::specs::Running::run))]
pub(crate) fn run<B: Base>(
    operations: &[Operation],
    ctx: &mut Ctx,
    entries: &mut Entries<'_, B>,
    source: &AccountId,
    index: u32,
    results: &mut ItemList<OperationResult>,
) -> Result<bool, AllocError>
    requires underway { IsUnderway ctx.old entries.old.current }
    requires indices { index + length operations.now < 2 ^ 32 }
    requires fit { AreFit operations.now }
    requires ids { CanDraw (length operations.now) ctx.old.id_pool }
    ensures succeeds { IfOk result (λ succeeds. succeeds ≡
        (spec.run ctx.old source.now index operations.now entries.old.current).succeeds) }
    ensures results { OnOk result (results.new ≡ results.old ++
        (spec.run ctx.old source.now index operations.now entries.old.current).results) }
    ensures entries { OnOk result (entries.new ≡ with_current entries.old
        (spec.run ctx.old source.now index operations.now entries.old.current).entries) }
    ensures ctx { OnOk result (
        ctx.new ≡ (spec.run ctx.old source.now index operations.now entries.old.current).ctx) }
{
    transaction_laws();
    match operations {
        [] => Ok(true),
        [first, others @ ..] => {
            let answer = apply_at(first, ctx, entries, source, index)?;
            let succeeded = is_success(&answer);
            results.push(answer)?;
            let others_succeeded = run(others, ctx, entries, source, index + 1, results)?;
            Ok(succeeded && others_succeeded)
        }
    }
}
