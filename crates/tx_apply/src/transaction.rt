//! One transaction, whose fee has been taken.

ghost use Rattle.std.specs.Prelude.{◌≡◌, ◌≤◌, ◌<◌, [], length, IfOk, OnOk};
ghost use Rattle.entry_map.specs.Undo.{with_current};
ghost use Rattle.op_form.specs.Sequences.{last_seq};
ghost use Rattle.op_laws.specs.Underway.{IsSettled, IsUnderway};
ghost use Rattle.tx_apply.specs.Laws.{AreFit, CanDraw};
ghost use Rattle.tx_apply.specs.Preconditions.{extra_signers_of};
ghost use Rattle.tx_apply.specs.Transaction as spec;

use crate::checks::judge;
use crate::preauths::remove_used;
use crate::running::run;
use entry_map::{Base, Entries};
use item_list::ItemList;
use ledger_types::{AccountId, Hash};
use op_laws::steps::transaction_laws;
use op_types::{OperationResult, Transaction, TransactionOutcome, TransactionV0};
use signer_check::Checker;
use sponsor_rules::Ctx;
use std::alloc::AllocError;

/// Applies the operations of a transaction. Any failure undoes them all, and so does a sponsorship that is still open
/// after the last one.
fn apply_operations<B: Base>(
    ctx: &mut Ctx,
    tx: &Transaction,
    entries: &mut Entries<'_, B>,
) -> Result<TransactionOutcome, AllocError>
    requires underway { IsUnderway ctx.old entries.old.current }
    requires few { length tx.now.operations ≤ 100 }
    requires fit { AreFit tx.now.operations }
    requires ids { CanDraw 100 ctx.old.id_pool }
    ensures outcome { IfOk result (λ outcome. outcome ≡
        (spec.operations_applied ctx.old tx.now entries.old.current).outcome) }
    ensures entries { OnOk result (entries.new ≡
        with_current entries.old (spec.operations_applied ctx.old tx.now entries.old.current).entries) }
    ensures id_pool { OnOk result (
        ctx.new.id_pool ≡ (spec.operations_applied ctx.old tx.now entries.old.current).id_pool) }
{
    let mut results = ItemList::new(tx.operations.allocator());
    let id_pool = ctx.id_pool;
    let source = tx.source_account.account_id();
    entries.child()?;
    let succeeded = run(
        tx.operations.as_slice(),
        ctx,
        entries,
        &source,
        0,
        &mut results,
    )?;
    if !succeeded {
        entries.drop_child();
        ctx.id_pool = id_pool;
        return Ok(TransactionOutcome::Failed(results));
    }
    if !ctx.sponsorships.is_empty() {
        entries.drop_child();
        ctx.id_pool = id_pool;
        return Ok(TransactionOutcome::BadSponsorship);
    }
    entries.commit()?;
    Ok(TransactionOutcome::Success(results))
}

/// Applies a transaction, whose fee has been taken. `pays` says whether its own fee and balance are looked at.
pub(crate) fn apply_transaction<B: Base>(
    pays: bool,
    base_fee: u32,
    ctx: &mut Ctx,
    checker: &mut Checker,
    hash: &Hash,
    tx: &Transaction,
    entries: &mut Entries<'_, B>,
) -> Result<TransactionOutcome, AllocError>
    requires settled { IsSettled ctx.old.id_pool entries.old.current }
    requires closed { ctx.old.sponsorships ≡ [] }
    requires seq { ctx.old.seq < last_seq }
    requires few { length tx.now.operations ≤ 100 }
    requires signers { length (extra_signers_of tx.now.cond) ≤ 2 }
    requires fit { AreFit tx.now.operations }
    requires ids { CanDraw 100 ctx.old.id_pool }
    requires hash { checker.old.hash ≡ hash.now }
    ensures outcome { IfOk result (λ outcome. outcome ≡ (spec.transaction_applied pays base_fee ctx.old hash.now
        checker.old.signatures tx.now entries.old.current).outcome) }
    ensures entries { OnOk result
        (entries.new ≡ with_current entries.old (spec.transaction_applied pays base_fee ctx.old
        hash.now checker.old.signatures tx.now entries.old.current).entries) }
    ensures id_pool { OnOk result (ctx.new.id_pool ≡ (spec.transaction_applied pays base_fee ctx.old hash.now
        checker.old.signatures tx.now entries.old.current).id_pool) }
{
    transaction_laws();
    let outcome = judge(pays, base_fee, ctx, checker, tx, entries)?;
    let source = tx.source_account.account_id();
    remove_used(entries, ctx, hash, &source, tx.operations.as_slice())?;
    match outcome {
        Some(outcome) => Ok(outcome),
        None => apply_operations(ctx, tx, entries),
    }
}

/// Applies a transaction of the first version, which isn't supported: it uses up its pre-authorised signers.
pub(crate) fn apply_v0<B: Base>(
    ctx: &Ctx,
    hash: &Hash,
    tx: &TransactionV0,
    entries: &mut Entries<'_, B>,
) -> Result<TransactionOutcome, AllocError>
    ensures outcome { IfOk result (λ outcome. outcome ≡
        (spec.v0_applied ctx.now hash.now tx.now entries.old.current).outcome) }
    ensures entries { OnOk result (entries.new ≡
        with_current entries.old (spec.v0_applied ctx.now hash.now tx.now entries.old.current).entries) }
{
    let source = AccountId(tx.source_account_ed25519);
    remove_used(entries, ctx, hash, &source, tx.operations.as_slice())?;
    Ok(TransactionOutcome::NotSupported)
}
