//! Fee bumps, whose fee has been taken.

ghost use Rattle.std.specs.Prelude.{◌≡◌, ◌≤◌, ◌<◌, ◌*◌, ◌^◌, [], nat_lt, length, IfOk, OnOk};
ghost use Rattle.entry_map.specs.Undo.{with_current};
ghost use Rattle.entry_slots.specs.Accounts.{account_at};
ghost use Rattle.entry_slots.specs.Tests.{first_fault};
ghost use Rattle.op_form.specs.Sequences.{last_seq};
ghost use Rattle.op_laws.specs.Underway.{IsSettled};
ghost use Rattle.tx_apply.specs.Preconditions.{extra_signers_of};
ghost use Rattle.tx_apply.specs.FeeBump as spec;
ghost use Rattle.tx_apply.specs.Laws.{AreFit, CanDraw};

use crate::checks::is_poor;
use crate::inner_result::bump_outcome;
use crate::signing::{all_used, check_account};
use crate::transaction::apply_transaction;
use entry_map::{Base, Entries};
use fee_rules::not_below_0;
use ledger_types::Hash;
use op_form::{ThresholdLevel, exists};
use op_laws::steps::transaction_laws;
use op_types::{FeeBumpTransaction, TransactionOutcome};
use signer_check::Checker;
use sponsor_rules::{Ctx, remove_preauth};
use std::alloc::AllocError;

// ---- the bid

/// Whether a bid times a number is below another bid times a number.
fn is_product_below(bid: u64, times: u64, other: u32, other_times: u64) -> bool
    requires times { times < 2 ^ 40 }
    requires other_times { other_times < 2 ^ 40 }
    ensures { result ≡ nat_lt (bid * times) (other * other_times) }
{
    u128::from(bid) * u128::from(times) < u128::from(other) * u128::from(other_times)
}

/// What so many operations have to bid.
fn least_bid(base_fee: u32, count: u64) -> u64
    requires { count < 128 }
    ensures value { result ≡ base_fee * count }
    ensures bound { result < 2 ^ 40 }
{
    u64::from(base_fee) * count
}

/// Whether the bid is too low by itself, or an operation's share of it below what the inner transaction bids for one.
#[tactic(auto, unfolding(crate::specs::FeeBump::is_low_bump))]
fn is_low_bump(base_fee: u32, bump: &FeeBumpTransaction) -> bool
    requires { length bump.now.inner_tx.tx.operations ≤ 100 }
    ensures { result ≡ spec.is_low_bump base_fee bump.now }
{
    let count = bump.inner_tx.tx.operations.len() as u64;
    let outer_least = least_bid(base_fee, count + 1);
    let inner_least = least_bid(base_fee, count.max(1));
    let bid = not_below_0(bump.fee);
    bid < outer_least || is_product_below(bid, inner_least, bump.inner_tx.tx.fee, outer_least)
}

/// Why a fee bump is refused before its signatures are looked at, if it is.
fn payer_fault<B: Base>(
    base_fee: u32,
    bump: &FeeBumpTransaction,
    entries: &Entries<'_, B>,
) -> Result<Option<TransactionOutcome>, AllocError>
    requires { length bump.now.inner_tx.tx.operations ≤ 100 }
    ensures { IfOk result (λ fault. fault ≡ first_fault (spec.payer_tests base_fee bump.now
        (account_at entries.now.current (spec.payer_of bump.now)))) }
{
    if is_low_bump(base_fee, bump) {
        return Ok(Some(TransactionOutcome::InsufficientFee));
    }
    if !exists(entries, &bump.fee_source.account_id())? {
        return Ok(Some(TransactionOutcome::NoAccount));
    }
    Ok(None)
}

// ---- the checks, and the inner transaction

/// The last checks of a fee bump, and its inner transaction.
fn apply_after_auth<B: Base>(
    base_fee: u32,
    ctx: &mut Ctx,
    hash: &Hash,
    outer: &Checker,
    inner_hash: &Hash,
    inner: &mut Checker,
    bump: &FeeBumpTransaction,
    entries: &mut Entries<'_, B>,
) -> Result<TransactionOutcome, AllocError>
    requires settled { IsSettled ctx.old.id_pool entries.old.current }
    requires closed { ctx.old.sponsorships ≡ [] }
    requires seq { ctx.old.seq < last_seq }
    requires few { length bump.now.inner_tx.tx.operations ≤ 100 }
    requires signers { length (extra_signers_of bump.now.inner_tx.tx.cond) ≤ 2 }
    requires fit { AreFit bump.now.inner_tx.tx.operations }
    requires ids { CanDraw 100 ctx.old.id_pool }
    requires inner { inner.old.hash ≡ inner_hash.now }
    ensures outcome { IfOk result (λ outcome. outcome ≡ (spec.applied_after_auth base_fee ctx.old
        (spec.signed_by hash.now outer.now.signatures inner_hash.now inner.old.signatures) bump.now
        outer.now.signatures entries.old.current).outcome) }
    ensures entries { OnOk result (entries.new ≡ with_current entries.old (spec.applied_after_auth base_fee ctx.old
        (spec.signed_by hash.now outer.now.signatures inner_hash.now inner.old.signatures) bump.now
        outer.now.signatures entries.old.current).entries) }
    ensures id_pool { OnOk result (ctx.new.id_pool ≡ (spec.applied_after_auth base_fee ctx.old
        (spec.signed_by hash.now outer.now.signatures inner_hash.now inner.old.signatures) bump.now
        outer.now.signatures entries.old.current).id_pool) }
{
    if is_poor(ctx, entries, &bump.fee_source.account_id())? {
        return Ok(TransactionOutcome::InsufficientBalance);
    }
    if !all_used(outer) {
        return Ok(TransactionOutcome::BadAuthExtra);
    }
    let outcome = apply_transaction(
        false,
        base_fee,
        ctx,
        inner,
        inner_hash,
        &bump.inner_tx.tx,
        entries,
    )?;
    Ok(bump_outcome(inner_hash, outcome))
}

/// Applies a fee bump: its own checks, and then its inner transaction without those of fee and balance.
pub(crate) fn apply_fee_bump<B: Base>(
    base_fee: u32,
    ctx: &mut Ctx,
    hash: &Hash,
    outer: &mut Checker,
    inner_hash: &Hash,
    inner: &mut Checker,
    bump: &FeeBumpTransaction,
    entries: &mut Entries<'_, B>,
) -> Result<TransactionOutcome, AllocError>
    requires settled { IsSettled ctx.old.id_pool entries.old.current }
    requires closed { ctx.old.sponsorships ≡ [] }
    requires seq { ctx.old.seq < last_seq }
    requires few { length bump.now.inner_tx.tx.operations ≤ 100 }
    requires signers { length (extra_signers_of bump.now.inner_tx.tx.cond) ≤ 2 }
    requires fit { AreFit bump.now.inner_tx.tx.operations }
    requires ids { CanDraw 100 ctx.old.id_pool }
    requires outer { outer.old.hash ≡ hash.now }
    requires inner { inner.old.hash ≡ inner_hash.now }
    ensures outcome { IfOk result (λ outcome. outcome ≡ (spec.bump_applied base_fee ctx.old
        (spec.signed_by hash.now outer.old.signatures inner_hash.now inner.old.signatures) bump.now
        entries.old.current).outcome) }
    ensures entries { OnOk result (entries.new ≡ with_current entries.old (spec.bump_applied base_fee ctx.old
        (spec.signed_by hash.now outer.old.signatures inner_hash.now inner.old.signatures) bump.now
        entries.old.current).entries) }
    ensures id_pool { OnOk result (ctx.new.id_pool ≡ (spec.bump_applied base_fee ctx.old
        (spec.signed_by hash.now outer.old.signatures inner_hash.now inner.old.signatures) bump.now
        entries.old.current).id_pool) }
{
    transaction_laws();
    if let Some(outcome) = payer_fault(base_fee, bump, entries)? {
        return Ok(outcome);
    }
    let payer = bump.fee_source.account_id();
    if !check_account(entries, outer, &payer, ThresholdLevel::Low)? {
        return Ok(TransactionOutcome::BadAuth);
    }
    remove_preauth(entries, ctx, &payer, hash)?;
    apply_after_auth(base_fee, ctx, hash, outer, inner_hash, inner, bump, entries)
}
