//! BUMP_SEQUENCE.

ghost use Rattle.std.specs.Prelude.{◌≡◌, ◌<◌, int_lt, if◌then◌else◌, IfOk, OnOk};
ghost use Rattle.entry_map.specs.Undo.{with_current};
ghost use Rattle.entry_slots.specs.Accounts.{with_account};
ghost use Rattle.entry_slots.specs.AccountExtensions.{with_seq_num_from};
ghost use Rattle.sponsor_rules.specs.SeqNums.{new_extension_v3};
ghost use Rattle.op_form.specs.Done.{Makes};
ghost use Rattle.op_form.specs.Sequences.{last_seq};
ghost use Rattle.op_account.specs.BumpSequence as spec;

use entry_map::{Base, Entries};
use entry_slots::{load_account, set_seq_num, store_account};
use op_types::{BumpSequenceOp, BumpSequenceResult, OperationResult, OperationResultTr};
use sponsor_rules::Ctx;
use std::alloc::AllocError;

/// BUMP_SEQUENCE: raises the source's sequence number, where it is lower. From protocol 19 on the account records the
/// closing ledger and its time, also where it isn't lower (CAP-0021).
pub fn bump_sequence<B: Base>(
    op: &BumpSequenceOp,
    ctx: &Ctx,
    entries: &mut Entries<'_, B>,
) -> Result<OperationResult, AllocError>
    requires { ctx.now.seq < last_seq }
    ensures { IfOk result (λ r.
        Makes r ctx.now entries.old entries.new (spec.bump_sequence ctx.now op.now entries.old.current)) }
{
    if op.bump_to < 0 {
        return Ok(answer(BumpSequenceResult::BadSeq));
    }
    raise_seq_num(ctx, entries, op.bump_to)?;
    Ok(answer(BumpSequenceResult::Success))
}

/// What the operation answers.
fn answer(code: BumpSequenceResult) -> OperationResult
    ensures { result ≡ spec.answer code }
{
    OperationResult::Inner(OperationResultTr::BumpSequence(code))
}

/// The greater of two sequence numbers.
fn greater(first: i64, second: i64) -> i64
    ensures { result ≡ (if int_lt first second then second else first) }
{
    if first < second { second } else { first }
}

/// Sets the source's sequence number to `least`, or to what it is where that is greater.
#[tactic(auto, unfolding(entry_slots::specs::Accounts::with_account))]
fn raise_seq_num<B: Base>(
    ctx: &Ctx,
    entries: &mut Entries<'_, B>,
    least: i64,
) -> Result<(), AllocError>
    requires { ctx.now.seq < last_seq }
    ensures { OnOk result (
        entries.new ≡
        with_current entries.old (with_account entries.old.current ctx.now.op_source
        (with_seq_num_from least (new_extension_v3 ctx.now)))) }
{
    let Some(mut slot) = load_account(entries, &ctx.op_source)? else {
        return Ok(());
    };
    let seq_num = greater(slot.account.seq_num, least);
    set_seq_num(&mut slot.account, seq_num, ctx.new_extension_v3())?;
    store_account(entries, slot)
}
