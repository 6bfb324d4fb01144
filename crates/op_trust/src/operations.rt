//! The operations of this crate, by their types.

ghost use Rattle.std.specs.Prelude.{◌<◌, IfOk};
ghost use Rattle.op_form.specs.Sequences.{last_seq};
ghost use Rattle.op_form.specs.Done.{Does, Makes};
ghost use Rattle.op_form.specs.Premises as premises;
ghost use Rattle.pool_shares.specs.Premises.{ArePoolsSound};
ghost use Rattle.op_trust.specs.Operations as spec;

use crate::change_trust::change_asset_trust;
use crate::share_trust::change_share_trust;
use entry_map::{Base, Entries};
use ledger_types::{Asset, ChangeTrustAsset};
use op_types::{ChangeTrustOp, Operation, OperationBody, OperationResult};
use sponsor_rules::Ctx;
use std::alloc::AllocError;

/// CHANGE_TRUST, by what the line that is asked for is in.
fn change_trust<B: Base>(
    op: &ChangeTrustOp,
    ctx: &Ctx,
    entries: &mut Entries<'_, B>,
) -> Result<OperationResult, AllocError>
    requires seq { ctx.now.seq < last_seq }
    requires ready { premises.AccountsAreReady entries.old.current }
    requires in_range { premises.BalancesAreInRange entries.old.current }
    requires sound { ArePoolsSound entries.old.current }
    ensures { IfOk result (λ r.
        Makes r ctx.now entries.old entries.new (spec.change_trust ctx.now op.now entries.old.current)) }
{
    match op.line {
        ChangeTrustAsset::Native => change_asset_trust(&Asset::Native, op.limit, ctx, entries),
        ChangeTrustAsset::Alphanum4 { code, issuer } => {
            change_asset_trust(&Asset::Alphanum4 { code, issuer }, op.limit, ctx, entries)
        }
        ChangeTrustAsset::Alphanum12 { code, issuer } => {
            change_asset_trust(&Asset::Alphanum12 { code, issuer }, op.limit, ctx, entries)
        }
        ChangeTrustAsset::PoolShare(params) => change_share_trust(&params, op.limit, ctx, entries),
    }
}

/// Applies an operation of `ctx.op_source`: it answers the result, and changes the entries. Where the operation fails,
/// nothing has changed. Operations of other types are not supported here.
#[tactic(auto, unfolding(crate::specs::Operations::trust_operation))]
pub fn apply<B: Base>(
    op: &Operation,
    ctx: &mut Ctx,
    entries: &mut Entries<'_, B>,
) -> Result<OperationResult, AllocError>
    requires seq { ctx.old.seq < last_seq }
    requires ready { premises.AccountsAreReady entries.old.current }
    requires in_range { premises.BalancesAreInRange entries.old.current }
    requires sound { ArePoolsSound entries.old.current }
    ensures { IfOk result (λ r.
        Does r ctx.new entries.old entries.new (spec.trust_operation ctx.old op.now.body entries.old.current)) }
{
    match &op.body {
        OperationBody::ChangeTrust(op) => change_trust(op, ctx, entries),
        _ => Ok(OperationResult::NotSupported),
    }
}
