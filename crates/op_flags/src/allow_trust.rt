//! ALLOW_TRUST.

ghost use Rattle.std.specs.Prelude.{◌≡◌, ◌<◌, ◌≤◌, Some, IfOk};
ghost use Rattle.trade_cross.specs.legal_rules.Owing.{AreEntriesLegal};
ghost use Rattle.op_form.specs.Assets.{line_of_asset};
ghost use Rattle.op_form.specs.Done.{Makes};
ghost use Rattle.op_form.specs.Sequences.{last_seq};
ghost use Rattle.op_flags.specs.AllowTrust as spec;

use crate::line_flags::{AUTHORIZING, flag_line};
use crate::revoker::Revoker;
use entry_map::{Base, Entries};
use entry_slots::{load_account, load_line};
use ledger_types::{AccountEntry, AccountId, Asset, TrustLineEntry};
use op_form::{is_auth_revocable, is_authorized, line_asset_of};
use op_types::{AllowTrustOp, AllowTrustResult, AssetCode, OperationResult, OperationResultTr};
use sponsor_rules::Ctx;
use std::alloc::AllocError;
use valid_values::is_valid_asset;

/// The greatest authorisation: AUTHORIZED_TO_MAINTAIN_LIABILITIES_FLAG of a trust line.
const GREATEST_AUTHORIZATION: u32 = 2;

/// ALLOW_TRUST: the source, which issues an asset, says whether a line in it may be used.
pub fn allow_trust<B: Base>(
    op: &AllowTrustOp,
    ctx: &Ctx,
    entries: &mut Entries<'_, B>,
) -> Result<OperationResult, AllocError>
    requires seq { ctx.now.seq < last_seq }
    requires legal { AreEntriesLegal ctx.now.id_pool entries.old.current }
    ensures { IfOk result (λ r.
        Makes r ctx.now entries.old entries.new (spec.allow_trust ctx.now op.now entries.old.current)) }
{
    let asset = asset_with(&op.asset, &ctx.op_source);
    if op.authorize > GREATEST_AUTHORIZATION
        || !is_valid_asset(&asset)
        || op.trustor.0 == ctx.op_source.0
    {
        return Ok(answer(AllowTrustResult::Malformed));
    }
    let Some(slot) = load_line(entries, &op.trustor, &line_asset_of(&asset))? else {
        return Ok(answer(AllowTrustResult::NoTrustLine));
    };
    match load_account(entries, &ctx.op_source)? {
        None => Ok(OperationResult::NoAccount),
        Some(source) => allow_line(op, ctx, entries, &source.account, &slot.line),
    }
}

/// What the operation answers.
fn answer(code: AllowTrustResult) -> OperationResult
    ensures { result ≡ spec.answer code }
{
    OperationResult::Inner(OperationResultTr::AllowTrust(code))
}

/// The asset with a code that an account issues.
fn asset_with(code: &AssetCode, issuer: &AccountId) -> Asset
    ensures { result ≡ spec.asset_with code.now issuer.now }
{
    match *code {
        AssetCode::Alphanum4(code) => Asset::Alphanum4 {
            code,
            issuer: *issuer,
        },
        AssetCode::Alphanum12(code) => Asset::Alphanum12 {
            code,
            issuer: *issuer,
        },
    }
}

/// Whether an authorisation is taken back, or a full one is reduced to that to maintain liabilities.
fn takes_back(op: &AllowTrustOp, line: &TrustLineEntry) -> bool
    ensures { result ≡ spec.takes_back op.now line.now }
{
    op.authorize == 0 || op.authorize == 2 && is_authorized(line)
}

/// The flags that a line gets: those that don't authorise stay.
fn allowed_flags(op: &AllowTrustOp, line: &TrustLineEntry) -> u32
    ensures { result ≡ spec.allowed_flags op.now line.now }
{
    (line.flags ^ (line.flags & AUTHORIZING)) | op.authorize
}

/// Gives the line its authorisation.
fn allow_line<B: Base>(
    op: &AllowTrustOp,
    ctx: &Ctx,
    entries: &mut Entries<'_, B>,
    source: &AccountEntry,
    line: &TrustLineEntry,
) -> Result<OperationResult, AllocError>
    requires seq { ctx.now.seq < last_seq }
    requires legal { AreEntriesLegal ctx.now.id_pool entries.old.current }
    requires authorize { op.now.authorize ≤ 2 }
    requires exists { line_of_asset entries.old.current op.now.trustor (spec.asset_allowed ctx.now op.now) ≡
        Some line.now }
    ensures { IfOk result (λ r.
        Makes r ctx.now entries.old entries.new (
        spec.line_allowed ctx.now op.now entries.old.current source.now line.now)) }
{
    if !is_auth_revocable(source) && takes_back(op, line) {
        return Ok(answer(AllowTrustResult::CantRevoke));
    }
    let asset = asset_with(&op.asset, &ctx.op_source);
    let flags = allowed_flags(op, line);
    flag_line(
        entries,
        ctx,
        Revoker::AllowTrust,
        &op.trustor,
        &asset,
        flags,
        line,
    )
}
