//! The operations of this crate, by their types.

ghost use Rattle.std.specs.Prelude.{◌<◌, IfOk};
ghost use Rattle.entry_slots.specs.Accounts.{HasAccount};
ghost use Rattle.op_form.specs.Sequences.{last_seq};
ghost use Rattle.op_form.specs.Done.{Does};
ghost use Rattle.op_form.specs.Premises as premises;
ghost use Rattle.op_account.specs.Operations as spec;

use crate::account_merge::account_merge;
use crate::bump_sequence::bump_sequence;
use crate::create_account::create_account;
use crate::inflation::inflation;
use entry_map::{Base, Entries};
use op_types::{Operation, OperationBody, OperationResult};
use sponsor_rules::Ctx;
use std::alloc::AllocError;

/// Applies an operation of `ctx.op_source`, which is an existing account: it answers the result, and changes the
/// entries. Where the operation fails, nothing has changed. Operations of other types are not supported here.
#[tactic(auto, unfolding(crate::specs::Operations::account_operation))]
pub fn apply<B: Base>(
    op: &Operation,
    ctx: &mut Ctx,
    entries: &mut Entries<'_, B>,
) -> Result<OperationResult, AllocError>
    requires seq { ctx.old.seq < last_seq }
    requires source { HasAccount entries.old.current ctx.old.op_source }
    requires ready { premises.AccountsAreReady entries.old.current }
    requires in_range { premises.AccountsAreInRange entries.old.current }
    ensures { IfOk result (λ r.
        Does r ctx.new entries.old entries.new (spec.account_operation ctx.old op.now.body entries.old.current)) }
{
    match &op.body {
        OperationBody::CreateAccount(op) => create_account(op, ctx, entries),
        OperationBody::AccountMerge(op) => account_merge(op, ctx, entries),
        OperationBody::Inflation => Ok(inflation()),
        OperationBody::BumpSequence(op) => bump_sequence(op, ctx, entries),
        _ => Ok(OperationResult::NotSupported),
    }
}
