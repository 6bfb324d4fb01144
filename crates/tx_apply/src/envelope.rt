//! One envelope of a set, whose fee has been taken.

ghost use Rattle.std.specs.Prelude.{◌≡◌, ◌<◌, ◌++◌, [], ◌∷◌, map, IfOk, OnOk};
ghost use Rattle.entry_map.specs.Undo.{with_current};
ghost use Rattle.value_hashes.specs.Hashes.{signed_hash_of};
ghost use Rattle.xdr_tx.specs.Transactions as xdr;
ghost use Rattle.op_form.specs.Sequences.{last_seq};
ghost use Rattle.op_laws.specs.Underway.{IsSettled};
ghost use Rattle.tx_apply.specs.Operations.{operations_of};
ghost use Rattle.tx_apply.specs.Laws.{AreFit, CanDraw};
ghost use Rattle.tx_apply.specs.Set as spec;

use crate::contexts::ctx_of;
use crate::fee_bump::apply_fee_bump;
use crate::setting::Setting;
use crate::transaction::{apply_transaction, apply_v0};
use entry_map::{Base, Entries};
use fee_rules::{seq_num, source};
use item_list::ItemList;
use ledger_types::Hash;
use op_types::{
    FeeBumpTransactionEnvelope, TransactionEnvelope, TransactionOutcome, TransactionResult,
    TransactionResultPair, TransactionV1Envelope,
};
use signer_check::Checker;
use sponsor_rules::Ctx;
use std::alloc::{AllocError, Global};
use value_hashes::{signed_hash, transaction_hash};

/// Applies a transaction with its signatures.
#[tactic(auto, unfolding(xdr_tx::specs::Transactions::transaction_v1_envelope))]
fn apply_v1_envelope<B: Base>(
    alloc: Global,
    setting: &Setting<'_>,
    ctx: &mut Ctx,
    hash: &Hash,
    envelope: &TransactionV1Envelope,
    entries: &mut Entries<'_, B>,
) -> Result<TransactionOutcome, AllocError>
    requires settled { IsSettled ctx.old.id_pool entries.old.current }
    requires closed { ctx.old.sponsorships ≡ [] }
    requires seq { ctx.old.seq < last_seq }
    requires within { xdr.transaction_v1_envelope.within envelope.now }
    requires fit { AreFit envelope.now.tx.operations }
    requires ids { CanDraw 100 ctx.old.id_pool }
    ensures outcome { IfOk result (λ outcome. outcome ≡
        (spec.v1_applied (spec.setting_of setting.now) ctx.old hash.now envelope.now entries.old.current).outcome) }
    ensures entries { OnOk result (entries.new ≡ with_current entries.old
        (spec.v1_applied (spec.setting_of setting.now) ctx.old hash.now envelope.now entries.old.current).entries) }
    ensures id_pool { OnOk result (ctx.new.id_pool ≡
        (spec.v1_applied (spec.setting_of setting.now) ctx.old hash.now envelope.now entries.old.current).id_pool) }
{
    let signatures = envelope.signatures.as_slice();
    let mut checker = Checker::over(alloc, hash, signatures, setting.vouches)?;
    apply_transaction(
        true,
        setting.header.base_fee,
        ctx,
        &mut checker,
        hash,
        &envelope.tx,
        entries,
    )
}

/// Applies a fee bump with its signatures.
#[tactic(auto, unfolding(xdr_tx::specs::Transactions::fee_bump_envelope))]
fn apply_fee_bump_envelope<B: Base>(
    alloc: Global,
    setting: &Setting<'_>,
    ctx: &mut Ctx,
    hash: &Hash,
    envelope: &FeeBumpTransactionEnvelope,
    entries: &mut Entries<'_, B>,
) -> Result<TransactionOutcome, AllocError>
    requires settled { IsSettled ctx.old.id_pool entries.old.current }
    requires closed { ctx.old.sponsorships ≡ [] }
    requires seq { ctx.old.seq < last_seq }
    requires within { xdr.fee_bump_envelope.within envelope.now }
    requires fit { AreFit envelope.now.tx.inner_tx.tx.operations }
    requires ids { CanDraw 100 ctx.old.id_pool }
    ensures outcome { IfOk result (λ outcome. outcome ≡
        (spec.fee_bump_applied (spec.setting_of setting.now) ctx.old hash.now envelope.now
        entries.old.current).outcome) }
    ensures entries { OnOk result (entries.new ≡ with_current entries.old
        (spec.fee_bump_applied (spec.setting_of setting.now) ctx.old hash.now envelope.now
        entries.old.current).entries) }
    ensures id_pool { OnOk result (ctx.new.id_pool ≡
        (spec.fee_bump_applied (spec.setting_of setting.now) ctx.old hash.now envelope.now
        entries.old.current).id_pool) }
{
    let inner_hash = transaction_hash(alloc, setting.network, &envelope.tx.inner_tx)?;
    let signatures = envelope.signatures.as_slice();
    let inner_signatures = envelope.tx.inner_tx.signatures.as_slice();
    let mut outer = Checker::over(alloc, hash, signatures, setting.vouches)?;
    let mut inner = Checker::over(alloc, &inner_hash, inner_signatures, setting.vouches)?;
    apply_fee_bump(
        setting.header.base_fee,
        ctx,
        hash,
        &mut outer,
        &inner_hash,
        &mut inner,
        &envelope.tx,
        entries,
    )
}

/// Applies a transaction, whose signatures are made over this hash.
#[tactic(auto, unfolding(xdr_tx::specs::Transactions::transaction_envelope))]
fn apply_envelope<B: Base>(
    alloc: Global,
    setting: &Setting<'_>,
    ctx: &mut Ctx,
    hash: &Hash,
    envelope: &TransactionEnvelope,
    entries: &mut Entries<'_, B>,
) -> Result<TransactionOutcome, AllocError>
    requires settled { IsSettled ctx.old.id_pool entries.old.current }
    requires closed { ctx.old.sponsorships ≡ [] }
    requires seq { ctx.old.seq < last_seq }
    requires within { xdr.transaction_envelope.within envelope.now }
    requires fit { AreFit (operations_of envelope.now) }
    requires ids { CanDraw 100 ctx.old.id_pool }
    ensures outcome { IfOk result (λ outcome. outcome ≡
        (spec.envelope_by (spec.setting_of setting.now) ctx.old hash.now envelope.now entries.old.current).outcome) }
    ensures entries { OnOk result (entries.new ≡ with_current entries.old
        (spec.envelope_by (spec.setting_of setting.now) ctx.old hash.now envelope.now entries.old.current).entries) }
    ensures id_pool { OnOk result (ctx.new.id_pool ≡
        (spec.envelope_by (spec.setting_of setting.now) ctx.old hash.now envelope.now entries.old.current).id_pool) }
{
    match envelope {
        TransactionEnvelope::V0(envelope) => apply_v0(ctx, hash, &envelope.tx, entries),
        TransactionEnvelope::V1(envelope) => {
            apply_v1_envelope(alloc, setting, ctx, hash, envelope, entries)
        }
        TransactionEnvelope::FeeBump(envelope) => {
            apply_fee_bump_envelope(alloc, setting, ctx, hash, envelope, entries)
        }
    }
}

/// A transaction's hash, and its result with its fee.
fn result_pair(hash: Hash, fee: i64, outcome: TransactionOutcome) -> TransactionResultPair
    ensures { result ≡ spec.pair_of hash fee outcome }
{
    TransactionResultPair {
        transaction_hash: hash,
        result: TransactionResult {
            fee_charged: fee,
            outcome,
        },
    }
}

/// Applies the transaction of an envelope, whose fee was so much. It puts its result at the end of a list, and
/// answers the greatest offer id then.
#[tactic(auto, unfolding(crate::specs::Set::envelope_applied))]
pub(crate) fn apply_one<B: Base>(
    setting: &Setting<'_>,
    id_pool: u64,
    envelope: &TransactionEnvelope,
    fee: i64,
    entries: &mut Entries<'_, B>,
    results: &mut ItemList<TransactionResultPair>,
) -> Result<u64, AllocError>
    requires settled { IsSettled id_pool entries.old.current }
    requires seq { setting.now.header.now.ledger_seq < last_seq }
    requires within { xdr.transaction_envelope.within envelope.now }
    requires fit { AreFit (operations_of envelope.now) }
    requires ids { CanDraw 100 id_pool }
    ensures results { OnOk result (results.new ≡ results.old ++ spec.result_pair
        (spec.setting_of setting.now) envelope.now fee (spec.envelope_applied
        (spec.setting_of setting.now) id_pool envelope.now entries.old.current).outcome ∷ []) }
    ensures entries { OnOk result (entries.new ≡ with_current entries.old (spec.envelope_applied
        (spec.setting_of setting.now) id_pool envelope.now entries.old.current).entries) }
    ensures id_pool { IfOk result (λ after. after ≡ (spec.envelope_applied
        (spec.setting_of setting.now) id_pool envelope.now entries.old.current).id_pool) }
{
    let alloc = results.allocator();
    let hash = signed_hash(alloc, setting.network, envelope)?;
    let mut ctx = ctx_of(
        alloc,
        setting.header,
        setting.close_time,
        id_pool,
        source(envelope),
        seq_num(envelope),
    );
    let outcome = apply_envelope(alloc, setting, &mut ctx, &hash, envelope, entries)?;
    results.push(result_pair(hash, fee, outcome))?;
    Ok(ctx.id_pool)
}
