//! The checks of a transaction before its operations.

ghost use Rattle.std.specs.Prelude.{◌≡◌, ◌≢◌, ◌<◌, ◌≤◌, ◌+◌, ◌||◌, length, nat_lt, None, IfOk, OnOk};
ghost use Rattle.std.specs.Ordering.{int_eq};
ghost use Rattle.entry_map.specs.Undo.{with_current};
ghost use Rattle.entry_slots.specs.Accounts.{account_at};
ghost use Rattle.entry_slots.specs.Tests.{first_fault};
ghost use Rattle.reserve_rules.specs.Reserve.{greatest_i64};
ghost use Rattle.op_form.specs.Sequences.{last_seq};
ghost use Rattle.op_laws.specs.Steps.{AreSignersFew};
ghost use Rattle.op_laws.specs.Underway.{IsSettled};
ghost use Rattle.tx_apply.specs.Signing.{auths_of};
ghost use Rattle.tx_apply.specs.Preconditions.{min_seq_num_of, min_seq_age_of, min_seq_ledger_gap_of, extra_signers_of};
ghost use Rattle.tx_apply.specs.Checks as spec;

use crate::preconditions::{
    are_malformed, extra_signers_of, is_after_ledger, is_after_time, is_before_ledger,
    is_before_time, ledger_bounds_of, min_seq_age_of, min_seq_ledger_gap_of, min_seq_num_of,
    time_bounds_of,
};
use crate::signing::{all_pass, all_used, check_account, check_operations, push_auth_results};
use entry_map::{Base, Entries};
use entry_slots::{AccountFacts, load_account, load_facts, set_seq_num, store_account};
use item_list::ItemList;
use ledger_types::AccountId;
use op_form::{ThresholdLevel, first_seq};
use op_laws::steps::transaction_laws;
use op_types::{Operation, Preconditions, Transaction, TransactionOutcome};
use reserve_rules::facts_available;
use signer_check::Checker;
use sponsor_rules::Ctx;
use std::alloc::AllocError;

/// The first protocol with PreconditionsV2 (CAP-0021).
const PRECONDITIONS_V2_FROM: u32 = 19;

// ---- before the sequence number

/// Whether preconditions are PreconditionsV2 before protocol 19.
fn are_unsupported(version: u32, cond: &Preconditions) -> bool
    ensures { result ≡ spec.are_unsupported version cond.now }
{
    match cond {
        Preconditions::V2(_) => version < PRECONDITIONS_V2_FROM,
        _ => false,
    }
}

/// The number of the ledger that closes.
fn closing_seq(ctx: &Ctx) -> u32
    requires { ctx.now.seq < last_seq }
    ensures { result ≡ spec.closing_seq ctx.now }
{
    ctx.seq + 1
}

/// Whether the ledger closes before the bounds.
fn is_early(ctx: &Ctx, cond: &Preconditions) -> bool
    requires { ctx.now.seq < last_seq }
    ensures { result ≡ spec.is_early ctx.now cond.now }
{
    is_before_time(ctx.close_time, &time_bounds_of(cond))
        || is_before_ledger(closing_seq(ctx), &ledger_bounds_of(cond))
}

/// Whether the ledger closes after the bounds.
fn is_late(ctx: &Ctx, cond: &Preconditions) -> bool
    requires { ctx.now.seq < last_seq }
    ensures { result ≡ spec.is_late ctx.now cond.now }
{
    is_after_time(ctx.close_time, &time_bounds_of(cond))
        || is_after_ledger(closing_seq(ctx), &ledger_bounds_of(cond))
}

/// Whether a sequence number is the one that accounts which this ledger makes begin with, from protocol 19 on.
fn is_starting_seq(ctx: &Ctx, seq_num: i64) -> bool
    requires { ctx.now.seq < last_seq }
    ensures { result ≡ spec.is_starting_seq ctx.now seq_num }
{
    ctx.version >= PRECONDITIONS_V2_FROM && seq_num == first_seq(ctx)
}

/// Whether a sequence number can't follow the source's last one.
fn is_bad_seq_after(min_seq_num: Option<i64>, last: i64, seq_num: i64) -> bool
    requires { last ≢ greatest_i64 }
    ensures { result ≡ spec.is_bad_seq_after min_seq_num last seq_num }
{
    match min_seq_num {
        None => seq_num != last + 1,
        Some(least) => last < least || seq_num <= last,
    }
}

/// Whether a transaction's sequence number isn't one that its source, whose last one is given, may use.
fn is_bad_seq(ctx: &Ctx, tx: &Transaction, last: i64) -> bool
    requires { ctx.now.seq < last_seq }
    ensures { result ≡ (spec.is_starting_seq ctx.now tx.now.seq_num || int_eq last greatest_i64
        || spec.is_bad_seq_after (min_seq_num_of tx.now.cond) last tx.now.seq_num) }
{
    is_starting_seq(ctx, tx.seq_num)
        || last == i64::MAX
        || is_bad_seq_after(min_seq_num_of(&tx.cond), last, tx.seq_num)
}

/// Whether the bid is below the base fee for each operation.
fn is_low(base_fee: u32, tx: &Transaction) -> bool
    ensures { result ≡ spec.is_low base_fee tx.now }
{
    let count = tx.operations.len().max(1);
    u128::from(tx.fee) < u128::from(base_fee) * count as u128
}

/// The first fault that a transaction has by itself.
fn own_fault(pays: bool, base_fee: u32, ctx: &Ctx, tx: &Transaction) -> Option<TransactionOutcome>
    requires { ctx.now.seq < last_seq }
    ensures { result ≡ first_fault (spec.own_tests pays base_fee ctx.now tx.now) }
{
    if are_unsupported(ctx.version, &tx.cond) {
        return Some(TransactionOutcome::NotSupported);
    }
    if are_malformed(extra_signers_of(&tx.cond)) {
        return Some(TransactionOutcome::Malformed);
    }
    if tx.operations.is_empty() {
        return Some(TransactionOutcome::MissingOperation);
    }
    if is_early(ctx, &tx.cond) {
        return Some(TransactionOutcome::TooEarly);
    }
    if is_late(ctx, &tx.cond) {
        return Some(TransactionOutcome::TooLate);
    }
    if pays && is_low(base_fee, tx) {
        return Some(TransactionOutcome::InsufficientFee);
    }
    None
}

/// Why a transaction doesn't use up its sequence number, if it doesn't.
fn early_fault<B: Base>(
    pays: bool,
    base_fee: u32,
    ctx: &Ctx,
    tx: &Transaction,
    entries: &Entries<'_, B>,
) -> Result<Option<TransactionOutcome>, AllocError>
    requires { ctx.now.seq < last_seq }
    ensures { IfOk result (λ fault. fault ≡ spec.early_fault pays base_fee ctx.now tx.now entries.now.current) }
{
    if let Some(fault) = own_fault(pays, base_fee, ctx, tx) {
        return Ok(Some(fault));
    }
    source_fault(ctx, tx, entries)
}

/// Why the source can't use up the sequence number, if it can't.
fn source_fault<B: Base>(
    ctx: &Ctx,
    tx: &Transaction,
    entries: &Entries<'_, B>,
) -> Result<Option<TransactionOutcome>, AllocError>
    requires { ctx.now.seq < last_seq }
    ensures { IfOk result (λ fault. fault ≡
        first_fault (spec.source_tests ctx.now tx.now (account_at entries.now.current (spec.source_account tx.now)))) }
{
    match load_facts(entries, &tx.source_account.account_id())? {
        None => Ok(Some(TransactionOutcome::NoAccount)),
        Some(facts) if is_bad_seq(ctx, tx, facts.seq_num) => Ok(Some(TransactionOutcome::BadSeq)),
        Some(_) => Ok(None),
    }
}

/// The source's sequence number becomes the transaction's, and it records when.
#[tactic(auto, unfolding(entry_slots::specs::Accounts::with_account))]
fn use_up_seq_num<B: Base>(
    ctx: &Ctx,
    tx: &Transaction,
    entries: &mut Entries<'_, B>,
) -> Result<(), AllocError>
    requires { ctx.now.seq < last_seq }
    ensures { OnOk result (
        entries.new ≡ with_current entries.old (spec.map_after_seq_num ctx.now tx.now entries.old.current)) }
{
    let Some(mut slot) = load_account(entries, &tx.source_account.account_id())? else {
        return Ok(());
    };
    set_seq_num(&mut slot.account, tx.seq_num, ctx.new_extension_v3())?;
    store_account(entries, slot)
}

// ---- after it

/// Whether the source's sequence number was set less than minSeqAge seconds ago, or fewer than minSeqLedgerGap ledgers.
fn is_seq_num_young(ctx: &Ctx, cond: &Preconditions, facts: &AccountFacts) -> bool
    requires { ctx.now.seq < last_seq }
    ensures { result ≡ (nat_lt ctx.now.close_time (facts.now.seq_time + min_seq_age_of cond.now)
        || nat_lt (spec.closing_seq ctx.now) (facts.now.seq_ledger + min_seq_ledger_gap_of cond.now)) }
{
    u128::from(ctx.close_time) < u128::from(facts.seq_time) + u128::from(min_seq_age_of(cond))
        || u64::from(closing_seq(ctx))
            < u64::from(facts.seq_ledger) + u64::from(min_seq_ledger_gap_of(cond))
}

/// Whether the source of a transaction exists, and minSeqAge or minSeqLedgerGap isn't met.
fn is_bad_min_seq_age_or_gap<B: Base>(
    ctx: &Ctx,
    tx: &Transaction,
    entries: &Entries<'_, B>,
) -> Result<bool, AllocError>
    requires { ctx.now.seq < last_seq }
    ensures { IfOk result (λ bad. bad ≡ spec.is_bad_min_seq_age_or_gap ctx.now tx.now.cond
        (account_at entries.now.current (spec.source_account tx.now))) }
{
    match load_facts(entries, &tx.source_account.account_id())? {
        None => Ok(false),
        Some(facts) => Ok(is_seq_num_young(ctx, &tx.cond, &facts)),
    }
}

/// Whether an account exists that can spend less than nothing.
pub(crate) fn is_poor<B: Base>(
    ctx: &Ctx,
    entries: &Entries<'_, B>,
    id: &AccountId,
) -> Result<bool, AllocError>
    ensures { IfOk result (λ poor. poor ≡ spec.is_poor ctx.now (account_at entries.now.current id.now)) }
{
    match load_facts(entries, id)? {
        None => Ok(false),
        Some(facts) => Ok(facts_available(&facts, ctx.base_reserve) < 0),
    }
}

/// Why the operations are not run by what their checks gave, if they are not.
fn outcome_of_passes(
    passes: &[bool],
    operations: &ItemList<Operation>,
    checker: &Checker,
) -> Result<Option<TransactionOutcome>, AllocError>
    ensures { IfOk result (λ outcome. outcome ≡
        spec.outcome_of_auths operations.now
        (record { passes = passes.now; signatures = checker.now.signatures })) }
{
    if !all_pass(passes) {
        let mut results = ItemList::new(operations.allocator());
        push_auth_results(passes, operations.as_slice(), &mut results)?;
        return Ok(Some(TransactionOutcome::Failed(results)));
    }
    if !all_used(checker) {
        return Ok(Some(TransactionOutcome::BadAuthExtra));
    }
    Ok(None)
}

/// Why the operations are not run by their signatures, if they are not.
fn operations_fault<B: Base>(
    entries: &Entries<'_, B>,
    checker: &mut Checker,
    tx: &Transaction,
) -> Result<Option<TransactionOutcome>, AllocError>
    requires { AreSignersFew entries.now.current }
    ensures { IfOk result (λ outcome. outcome ≡
        spec.outcome_of_auths tx.now.operations
        (auths_of checker.old.hash (spec.source_account tx.now) entries.now.current checker.old.signatures
        tx.now.operations)) }
{
    let mut passes = ItemList::new(tx.operations.allocator());
    let source = tx.source_account.account_id();
    check_operations(
        entries,
        checker,
        &source,
        tx.operations.as_slice(),
        &mut passes,
    )?;
    outcome_of_passes(passes.as_slice(), &tx.operations, checker)
}

/// Whether the signatures reach the low threshold of the source, and are of all extra signers.
fn check_transaction<B: Base>(
    entries: &Entries<'_, B>,
    checker: &mut Checker,
    tx: &Transaction,
) -> Result<bool, AllocError>
    requires few { AreSignersFew entries.now.current }
    requires signers { length (extra_signers_of tx.now.cond) ≤ 2 }
    ensures passes { IfOk result (λ passes. passes ≡
        (spec.transaction_auth checker.old.hash checker.old.signatures tx.now entries.now.current).passes) }
    ensures used { OnOk result (checker.new ≡ record checker.old {
      signatures =
          (spec.transaction_auth checker.old.hash checker.old.signatures tx.now entries.now.current).signatures;
    }) }
{
    let source = tx.source_account.account_id();
    if !check_account(entries, checker, &source, ThresholdLevel::Low)? {
        return Ok(false);
    }
    Ok(checker.check_extra(extra_signers_of(&tx.cond)))
}

/// Why the operations are not run, if they are not, once the sequence number is used up.
fn late_fault<B: Base>(
    pays: bool,
    ctx: &Ctx,
    checker: &mut Checker,
    tx: &Transaction,
    entries: &Entries<'_, B>,
) -> Result<Option<TransactionOutcome>, AllocError>
    requires few { AreSignersFew entries.now.current }
    requires signers { length (extra_signers_of tx.now.cond) ≤ 2 }
    ensures { IfOk result (λ outcome. outcome ≡
        spec.late_outcome pays ctx.now checker.old.hash checker.old.signatures tx.now entries.now.current) }
{
    if !check_transaction(entries, checker, tx)? {
        return Ok(Some(TransactionOutcome::BadAuth));
    }
    if pays && is_poor(ctx, entries, &tx.source_account.account_id())? {
        return Ok(Some(TransactionOutcome::InsufficientBalance));
    }
    operations_fault(entries, checker, tx)
}

/// Uses up the sequence number of a transaction that may, and answers why its operations are not run, if they are not.
fn judge_after_seq_num<B: Base>(
    pays: bool,
    base_fee: u32,
    ctx: &Ctx,
    checker: &mut Checker,
    tx: &Transaction,
    entries: &mut Entries<'_, B>,
) -> Result<Option<TransactionOutcome>, AllocError>
    requires settled { IsSettled ctx.now.id_pool entries.old.current }
    requires seq { ctx.now.seq < last_seq }
    requires signers { length (extra_signers_of tx.now.cond) ≤ 2 }
    requires early { spec.early_fault pays base_fee ctx.now tx.now entries.old.current ≡ None }
    ensures outcome { IfOk result (λ outcome. outcome ≡ (spec.judged_by pays ctx.now checker.old.hash
        checker.old.signatures tx.now entries.old.current None).outcome) }
    ensures entries { OnOk result (
        entries.new ≡ with_current entries.old (spec.map_after_seq_num ctx.now tx.now entries.old.current)) }
{
    transaction_laws();
    let is_too_early = is_bad_min_seq_age_or_gap(ctx, tx, entries)?;
    use_up_seq_num(ctx, tx, entries)?;
    if is_too_early {
        return Ok(Some(TransactionOutcome::BadMinSeqAgeOrGap));
    }
    late_fault(pays, ctx, checker, tx, entries)
}

/// Why the operations of a transaction are not run, if they are not. Its sequence number is used up where its source
/// may use it. `pays` says whether the transaction's own fee and balance are looked at.
pub(crate) fn judge<B: Base>(
    pays: bool,
    base_fee: u32,
    ctx: &Ctx,
    checker: &mut Checker,
    tx: &Transaction,
    entries: &mut Entries<'_, B>,
) -> Result<Option<TransactionOutcome>, AllocError>
    requires settled { IsSettled ctx.now.id_pool entries.old.current }
    requires seq { ctx.now.seq < last_seq }
    requires signers { length (extra_signers_of tx.now.cond) ≤ 2 }
    ensures outcome { IfOk result (λ outcome. outcome ≡ (spec.judged pays base_fee ctx.now checker.old.hash
        checker.old.signatures tx.now entries.old.current).outcome) }
    ensures entries { OnOk result (entries.new ≡ with_current entries.old (spec.judged pays base_fee ctx.now
        checker.old.hash checker.old.signatures tx.now entries.old.current).entries) }
{
    match early_fault(pays, base_fee, ctx, tx, entries)? {
        Some(fault) => Ok(Some(fault)),
        None => judge_after_seq_num(pays, base_fee, ctx, checker, tx, entries),
    }
}
