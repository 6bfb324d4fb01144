//! SET_TRUST_LINE_FLAGS.

ghost use Rattle.std.specs.Prelude.{◌≡◌, ◌<◌, false, Some, IfOk};
ghost use Rattle.entry_slots.specs.Tests.{first_fault};
ghost use Rattle.trade_cross.specs.legal_rules.Owing.{AreEntriesLegal};
ghost use Rattle.op_form.specs.Assets.{line_of_asset};
ghost use Rattle.op_form.specs.Done.{Makes};
ghost use Rattle.op_form.specs.Sequences.{last_seq};
ghost use Rattle.op_flags.specs.SetTrustLineFlags as spec;

use crate::line_flags::{AUTHORIZING, flag_line};
use crate::revoker::Revoker;
use entry_map::{Base, Entries};
use entry_slots::{load_account, load_line};
use ledger_types::{AccountEntry, TrustLineEntry};
use op_form::{is_auth_revocable, is_issued_by, line_asset_of};
use op_types::{OperationResult, OperationResultTr, SetTrustLineFlagsOp, SetTrustLineFlagsResult};
use sponsor_rules::Ctx;
use std::alloc::AllocError;
use valid_values::is_valid_asset;

/// All flags of a trust line (MASK_TRUSTLINE_FLAGS_V17).
const GREATEST_FLAGS: u32 = 7;

/// AUTHORIZED_FLAG of a trust line.
const AUTHORIZED: u32 = 1;

/// AUTHORIZED_TO_MAINTAIN_LIABILITIES_FLAG of a trust line.
const AUTHORIZED_TO_MAINTAIN_LIABILITIES: u32 = 2;

/// TRUSTLINE_CLAWBACK_ENABLED_FLAG of a trust line.
const TRUSTLINE_CLAWBACK_ENABLED: u32 = 4;

/// SET_TRUST_LINE_FLAGS: the source, which issues an asset, sets and clears flags of a line in it.
pub fn set_trust_line_flags<B: Base>(
    op: &SetTrustLineFlagsOp,
    ctx: &Ctx,
    entries: &mut Entries<'_, B>,
) -> Result<OperationResult, AllocError>
    requires seq { ctx.now.seq < last_seq }
    requires legal { AreEntriesLegal ctx.now.id_pool entries.old.current }
    ensures { IfOk result (λ r.
        Makes r ctx.now entries.old entries.new (spec.set_trust_line_flags ctx.now op.now entries.old.current)) }
{
    if is_foreign(op, ctx) || are_flags_bad(op) {
        return Ok(answer(SetTrustLineFlagsResult::Malformed));
    }
    let Some(slot) = load_line(entries, &op.trustor, &line_asset_of(&op.asset))? else {
        return Ok(answer(SetTrustLineFlagsResult::NoTrustLine));
    };
    match load_account(entries, &ctx.op_source)? {
        None => Ok(OperationResult::NoAccount),
        Some(source) => set_line(op, ctx, entries, &source.account, &slot.line),
    }
}

/// What the operation answers.
fn answer(code: SetTrustLineFlagsResult) -> OperationResult
    ensures { result ≡ spec.answer code }
{
    OperationResult::Inner(OperationResultTr::SetTrustLineFlags(code))
}

/// Whether the source isn't the issuer, or the line would be its own.
fn is_foreign(op: &SetTrustLineFlagsOp, ctx: &Ctx) -> bool
    ensures { result ≡ spec.is_foreign ctx.now op.now }
{
    !is_valid_asset(&op.asset)
        || !is_issued_by(&op.asset, &ctx.op_source)
        || op.trustor.0 == ctx.op_source.0
}

/// Whether flags are asked for that can't be set or cleared, or not both at once.
fn are_flags_bad(op: &SetTrustLineFlagsOp) -> bool
    ensures { result ≡ spec.are_flags_bad op.now }
{
    op.clear_flags > GREATEST_FLAGS
        || op.set_flags > GREATEST_FLAGS
        || op.set_flags & op.clear_flags != 0
        || op.set_flags & TRUSTLINE_CLAWBACK_ENABLED != 0
        || op.set_flags & AUTHORIZING == AUTHORIZING
}

/// The flags that a line gets.
fn new_flags(op: &SetTrustLineFlagsOp, line: &TrustLineEntry) -> u32
    ensures { result ≡ spec.new_flags op.now line.now }
{
    (line.flags ^ (line.flags & op.clear_flags)) | op.set_flags
}

/// Whether a line loses a flag.
fn loses(line: &TrustLineEntry, flags: u32, flag: u32) -> bool
    ensures { result ≡ spec.loses line.now flags flag }
{
    line.flags & flag != 0 && flags & flag == 0
}

/// Whether an authorisation is taken back, or that to maintain liabilities with nothing in its place.
fn takes_back(line: &TrustLineEntry, flags: u32) -> bool
    ensures { result ≡ spec.takes_back line.now flags }
{
    loses(line, flags, AUTHORIZED)
        || loses(line, flags, AUTHORIZED_TO_MAINTAIN_LIABILITIES) && flags & AUTHORIZED == 0
}

/// Why a line can't get its flags.
fn refusal(source: &AccountEntry, line: &TrustLineEntry, flags: u32) -> Option<OperationResult>
    ensures { result ≡ first_fault (spec.flag_tests source.now line.now flags) }
{
    if !is_auth_revocable(source) && takes_back(line, flags) {
        return Some(answer(SetTrustLineFlagsResult::CantRevoke));
    }
    if flags & AUTHORIZING == AUTHORIZING {
        return Some(answer(SetTrustLineFlagsResult::InvalidState));
    }
    None
}

/// Sets and clears the flags of the line.
fn set_line<B: Base>(
    op: &SetTrustLineFlagsOp,
    ctx: &Ctx,
    entries: &mut Entries<'_, B>,
    source: &AccountEntry,
    line: &TrustLineEntry,
) -> Result<OperationResult, AllocError>
    requires seq { ctx.now.seq < last_seq }
    requires legal { AreEntriesLegal ctx.now.id_pool entries.old.current }
    requires foreign { spec.is_foreign ctx.now op.now ≡ false }
    requires few { spec.are_flags_bad op.now ≡ false }
    requires exists { line_of_asset entries.old.current op.now.trustor op.now.asset ≡ Some line.now }
    ensures { IfOk result (λ r.
        Makes r ctx.now entries.old entries.new (
        spec.line_set ctx.now op.now entries.old.current source.now line.now)) }
{
    let flags = new_flags(op, line);
    match refusal(source, line, flags) {
        Some(refusal) => Ok(refusal),
        None => flag_line(
            entries,
            ctx,
            Revoker::SetTrustLineFlags,
            &op.trustor,
            &op.asset,
            flags,
            line,
        ),
    }
}
