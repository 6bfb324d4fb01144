//! The operations of this crate, by their types.

ghost use Rattle.std.specs.Prelude.{◌<◌, IfOk};
ghost use Rattle.trade_cross.specs.legal_rules.Owing.{AreEntriesLegal};
ghost use Rattle.op_form.specs.Done.{Does};
ghost use Rattle.op_form.specs.Sequences.{last_seq};
ghost use Rattle.op_flags.specs.Operations as spec;

use crate::allow_trust::allow_trust;
use crate::set_trust_line_flags::set_trust_line_flags;
use entry_map::{Base, Entries};
use op_types::{Operation, OperationBody, OperationResult};
use sponsor_rules::Ctx;
use std::alloc::AllocError;

/// Applies an operation of `ctx.op_source`: it answers the result, and changes the entries. Where the operation fails,
/// nothing has changed. Operations of other types are not supported here.
#[tactic(auto, unfolding(crate::specs::Operations::flags_operation))]
pub fn apply<B: Base>(
    op: &Operation,
    ctx: &mut Ctx,
    entries: &mut Entries<'_, B>,
) -> Result<OperationResult, AllocError>
    requires seq { ctx.old.seq < last_seq }
    requires legal { AreEntriesLegal ctx.old.id_pool entries.old.current }
    ensures { IfOk result (λ r.
        Does r ctx.new entries.old entries.new (spec.flags_operation ctx.old op.now.body entries.old.current)) }
{
    match &op.body {
        OperationBody::AllowTrust(op) => allow_trust(op, ctx, entries),
        OperationBody::SetTrustLineFlags(op) => set_trust_line_flags(op, ctx, entries),
        _ => Ok(OperationResult::NotSupported),
    }
}
