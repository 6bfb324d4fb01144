//! What a set charges.

ghost use Rattle.std.specs.Prelude.{◌≡◌, ◌≤◌, ◌<◌, ◌≤ℤ◌, ◌-ℤ◌, ◌^◌, pos, unsigned_abs};
ghost use Rattle.std.specs.List.{sum_by};
ghost use Rattle.std.specs.Option.{ForSome};
ghost use Rattle.fee_rules.specs.Envelopes as envelopes;
ghost use Rattle.fee_rules.specs.Fees as spec;

use crate::envelope::{bid, not_below_0};
use ledger_types::LedgerHeader;
use op_types::{TransactionEnvelope, TransactionSet};

/// How many operations are bid for; a fee bump counts as one more (CAP-0015).
fn operation_count(envelope: &TransactionEnvelope) -> u128
    ensures count { result ≡ envelopes.operation_count envelope.now }
    ensures few { result ≤ 2 ^ 64 }
{
    match envelope {
        TransactionEnvelope::V0(signed) => signed.tx.operations.len() as u128,
        TransactionEnvelope::V1(signed) => signed.tx.operations.len() as u128,
        TransactionEnvelope::FeeBump(signed) => {
            signed.tx.inner_tx.tx.operations.len() as u128 + 1
        }
    }
}

/// How many operations the transactions of a set bid for.
fn total_operations(set: &[TransactionEnvelope]) -> u128
    ensures { result ≡ sum_by envelopes.operation_count set.now }
{
    let mut total = 0u128;
    for envelope in set {
        total += operation_count(envelope);
    }
    total
}

/// Whether a set has more operations than 100 below the most that a set may have.
fn is_in_surge(max_tx_set_size: u32, set: &[TransactionEnvelope]) -> bool
    ensures { result ≡ spec.is_in_surge max_tx_set_size set.now }
{
    total_operations(set) > u128::from(max_tx_set_size.saturating_sub(100))
}

/// A bid for each of so many operations, rounded up.
fn bid_for_each(bid: u64, operations: u128) -> u64
    requires fits { bid < 2 ^ 63 }
    requires some { 1 ≤ operations }
    requires few { operations ≤ 2 ^ 64 }
    ensures each { result ≡ spec.ceil_div bid operations }
    ensures fits { result < 2 ^ 63 }
{
    ((u128::from(bid) + (operations - 1)) / operations) as u64
}

/// The lesser of the bid of a transaction for each of its operations, where it has any, and the least one of others.
fn with_bid(envelope: &TransactionEnvelope, least: Option<u64>) -> Option<u64>
    requires { ForSome least (λ bid. bid < 2 ^ 63) }
    ensures bid { result ≡ spec.with_bid envelope.now least }
    ensures fits { ForSome result (λ bid. bid < 2 ^ 63) }
{
    let operations = operation_count(envelope);
    if operations == 0 {
        return least;
    }
    let each = bid_for_each(bid(envelope), operations);
    match least {
        None => Some(each),
        Some(other) => Some(each.min(other)),
    }
}

/// The least bid for an operation of the transactions that have operations.
#[tactic(auto, unfolding(crate::specs::Fees::least_bid))]
fn least_bid(set: &[TransactionEnvelope]) -> Option<u64>
    ensures bid { result ≡ spec.least_bid set.now }
    ensures fits { ForSome result (λ bid. bid < 2 ^ 63) }
{
    let mut least = None;
    let mut i = set.len();
    while i > 0 {
        i -= 1;
        least = with_bid(&set[i], least);
    }
    least
}

/// What an operation of a set costs at most, in stroops: the header's base fee, or, in a set of more operations than
/// 100 below the most that a set may have, the least bid an operation, rounded up (TxSetFrame::getBaseFee in
/// stellar-core). It may lie below the header's. It takes no memory.
pub fn set_base_fee(header: &LedgerHeader, set: &TransactionSet) -> i64
    ensures fee { result ≡ pos (spec.set_base_fee header.now set.now.txs) }
{
    if !is_in_surge(header.max_tx_set_size, set.txs.as_slice()) {
        return i64::from(header.base_fee);
    }
    match least_bid(set.txs.as_slice()) {
        None => i64::from(header.base_fee),
        Some(bid) => bid as i64,
    }
}

/// What a transaction is charged, in stroops, where an operation costs so much: never more than its bid, nor than what
/// its fee source has (TransactionFrame::processFeeSeqNum in stellar-core). It takes no memory.
pub fn fee_charged(base_fee: i64, envelope: &TransactionEnvelope, balance: i64) -> i64
    requires { pos 0 ≤ℤ base_fee }
    ensures { result ≡ pos (spec.fee_charged (unsigned_abs base_fee) envelope.now balance) }
{
    let wanted = u128::from(base_fee.unsigned_abs()) * operation_count(envelope).max(1);
    let most = u128::from(bid(envelope)).min(wanted);
    u128::from(not_below_0(balance)).min(most) as i64
}

/// What a balance has after a fee of at most what the balance had, in stroops: nothing more where it was below 0.
pub fn after_fee(balance: i64, fee: i64) -> i64
    requires low { pos 0 ≤ℤ fee }
    requires most { fee ≤ℤ pos (envelopes.not_below_0 balance) }
    ensures { result ≡ balance -ℤ fee }
{
    balance - fee
}
