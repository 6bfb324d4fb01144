//! The operations of this crate, by their types.

ghost use Rattle.std.specs.Prelude.{◌<◌, IfOk};
ghost use Rattle.op_form.specs.Sequences.{last_seq};
ghost use Rattle.op_form.specs.Done.{Does};
ghost use Rattle.op_form.specs.Premises as premises;
ghost use Rattle.op_options.specs.Operations as spec;

use crate::manage_data::manage_data;
use crate::set_options::set_options;
use entry_map::{Base, Entries};
use op_types::{Operation, OperationBody, OperationResult};
use sponsor_rules::Ctx;
use std::alloc::AllocError;

/// Applies an operation of `ctx.op_source`: it answers the result, and changes the entries. Where the operation fails,
/// nothing has changed. Operations of other types are not supported here.
#[tactic(auto, unfolding(crate::specs::Operations::options_operation))]
pub fn apply<B: Base>(
    op: &Operation,
    ctx: &mut Ctx,
    entries: &mut Entries<'_, B>,
) -> Result<OperationResult, AllocError>
    requires seq { ctx.old.seq < last_seq }
    requires ready { premises.AccountsAreReady entries.old.current }
    ensures { IfOk result (λ r.
        Does r ctx.new entries.old entries.new (spec.options_operation ctx.old op.now.body entries.old.current)) }
{
    match &op.body {
        OperationBody::SetOptions(op) => set_options(op, ctx, entries),
        OperationBody::ManageData(op) => manage_data(op, ctx, entries),
        _ => Ok(OperationResult::NotSupported),
    }
}
