//! Operations, applied where they may be, and what they answer.

ghost use Rattle.std.specs.Prelude.{◌≡◌, ◌<◌, true};
ghost use Rattle.entry_slots.specs.Accounts.{HasAccount};
ghost use Rattle.probe.specs.Ready.{IsReadyLedger};
ghost use Rattle.probe.specs.Ready as spec;

use entry_map::{Entries, MapBase};
use op_form::exists;
use op_types::{Operation, OperationBody, OperationResult};
use sponsor_rules::Ctx;
use std::alloc::{AllocError, Global};
use xdr_core::Cursor;
use xdr_tx::read_operation;

/// Whether an operation asks that pools are sound, as they are where there are none.
pub fn asks_for_pools(op: &Operation) -> bool
    ensures { result ≡ spec.asks_for_pools op.now.body }
{
    match &op.body {
        OperationBody::ChangeTrust(_) => true,
        _ => false,
    }
}

/// Reads an operation and applies it. Answers none where it may not be: its source doesn't exist, the ledger is the
/// last, or it asks that pools are sound in a ledger that isn't plain. Operations on offers and pools, payments along
/// paths, ALLOW_TRUST and SET_TRUST_LINE_FLAGS aren't applied here: they ask for a legal ledger, which these small ones
/// aren't.
pub fn applied(
    alloc: Global,
    entries: &mut Entries<'_, MapBase>,
    are_plain: bool,
    ctx: &mut Ctx,
    input: &mut Cursor<'_>,
) -> Option<OperationResult>
    requires { IsReadyLedger are_plain entries.old.current }
{
    let op = read_operation(alloc, input).ok()?;
    if ctx.seq >= 2_147_483_647 {
        return None;
    }
    if !exists(entries, &ctx.op_source).ok()? {
        return None;
    }
    if asks_for_pools(&op) && !are_plain {
        return None;
    }
    applied_by_type(&op, ctx, entries, are_plain).ok()
}

fn applied_by_type(
    op: &Operation,
    ctx: &mut Ctx,
    entries: &mut Entries<'_, MapBase>,
    are_plain: bool,
) -> Result<OperationResult, AllocError>
    requires seq { ctx.old.seq < 2147483647 }
    requires source { HasAccount entries.old.current ctx.old.op_source }
    requires ready { IsReadyLedger are_plain entries.old.current }
    requires plain { spec.asks_for_pools op.now.body ≡ true → are_plain ≡ true }
{
    match &op.body {
        OperationBody::CreateAccount(_)
        | OperationBody::AccountMerge(_)
        | OperationBody::Inflation
        | OperationBody::BumpSequence(_) => op_account::apply(op, ctx, entries),
        OperationBody::SetOptions(_) | OperationBody::ManageData(_) => {
            op_options::apply(op, ctx, entries)
        }
        OperationBody::BeginSponsoringFutureReserves(_)
        | OperationBody::EndSponsoringFutureReserves
        | OperationBody::RevokeSponsorship(_) => op_sponsor::apply(op, ctx, entries),
        OperationBody::ChangeTrust(_) => op_trust::apply(op, ctx, entries),
        OperationBody::CreateClaimableBalance(_)
        | OperationBody::ClaimClaimableBalance(_)
        | OperationBody::Clawback(_)
        | OperationBody::ClawbackClaimableBalance(_) => op_claim::apply(op, ctx, entries),
        OperationBody::Payment(_) => op_payment::apply(op, ctx, entries),
        _ => Ok(OperationResult::NotSupported),
    }
}
