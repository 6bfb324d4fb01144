//! BEGIN_SPONSORING_FUTURE_RESERVES.

ghost use Rattle.std.specs.Prelude.{◌≡◌, IfOk, OnOk};
ghost use Rattle.entry_slots.specs.Tests.{first_fault};
ghost use Rattle.op_form.specs.Done.{Does, done_of};
ghost use Rattle.op_sponsor.specs.BeginSponsoringFutureReserves as spec;

use entry_map::{Base, Entries};
use op_form::is_open_sponsor;
use op_types::{
    BeginSponsoringFutureReservesOp, BeginSponsoringFutureReservesResult, OperationResult,
    OperationResultTr,
};
use sponsor_rules::{Ctx, Sponsorship, open_sponsor};
use std::alloc::AllocError;

/// BEGIN_SPONSORING_FUTURE_RESERVES: the source pays from now on for what another account adds. The entries stay.
pub fn begin_sponsoring<B: Base>(
    op: &BeginSponsoringFutureReservesOp,
    ctx: &mut Ctx,
    _entries: &Entries<'_, B>,
) -> Result<OperationResult, AllocError>
    ensures { IfOk result (λ r.
        Does r ctx.new _entries.now _entries.now (
        done_of ctx.old _entries.now.current (spec.begin_sponsoring ctx.old op.now _entries.now.current))) }
{
    if let Some(refusal) = refusal(op, ctx) {
        return Ok(refusal);
    }
    open_sponsorship(op, ctx)?;
    Ok(answer(BeginSponsoringFutureReservesResult::Success))
}

/// What the operation answers.
fn answer(code: BeginSponsoringFutureReservesResult) -> OperationResult
    ensures { result ≡ spec.answer code }
{
    OperationResult::Inner(OperationResultTr::BeginSponsoringFutureReserves(code))
}

/// Why the sponsorship can't be opened, if it can't.
fn refusal(op: &BeginSponsoringFutureReservesOp, ctx: &Ctx) -> Option<OperationResult>
    ensures { result ≡ first_fault (spec.begin_tests ctx.now op.now) }
{
    if op.sponsored_id.0 == ctx.op_source.0 {
        return Some(answer(BeginSponsoringFutureReservesResult::Malformed));
    }
    if open_sponsor(ctx, &op.sponsored_id).is_some() {
        return Some(answer(BeginSponsoringFutureReservesResult::AlreadySponsored));
    }
    if open_sponsor(ctx, &ctx.op_source).is_some() || is_open_sponsor(ctx, &op.sponsored_id) {
        return Some(answer(BeginSponsoringFutureReservesResult::Recursive));
    }
    None
}

/// Opens the sponsorship.
fn open_sponsorship(op: &BeginSponsoringFutureReservesOp, ctx: &mut Ctx) -> Result<(), AllocError>
    ensures { OnOk result (ctx.new ≡ spec.with_sponsorship_opened op.now ctx.old) }
{
    let sponsor = ctx.op_source;
    ctx.sponsorships.push(Sponsorship {
        sponsored: op.sponsored_id,
        sponsor,
    })
}
