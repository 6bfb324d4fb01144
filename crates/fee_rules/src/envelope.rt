//! What a set's order and fees look at in an envelope.

ghost use Rattle.std.specs.Prelude.{◌≡◌, ◌<◌, ◌^◌};
ghost use Rattle.fee_rules.specs.Envelopes as spec;

use ledger_types::AccountId;
use op_types::TransactionEnvelope;

/// The account whose sequence number a transaction uses up; of a fee bump, that of the inner transaction (CAP-0015).
pub fn source(envelope: &TransactionEnvelope) -> AccountId
    ensures { result ≡ spec.source_of envelope.now }
{
    match envelope {
        TransactionEnvelope::V0(signed) => AccountId(signed.tx.source_account_ed25519),
        TransactionEnvelope::V1(signed) => signed.tx.source_account.account_id(),
        TransactionEnvelope::FeeBump(signed) => signed.tx.inner_tx.tx.source_account.account_id(),
    }
}

/// The sequence number that a transaction uses up.
pub fn seq_num(envelope: &TransactionEnvelope) -> i64
    ensures { result ≡ spec.seq_num_of envelope.now }
{
    match envelope {
        TransactionEnvelope::V0(signed) => signed.tx.seq_num,
        TransactionEnvelope::V1(signed) => signed.tx.seq_num,
        TransactionEnvelope::FeeBump(signed) => signed.tx.inner_tx.tx.seq_num,
    }
}

/// The account that pays the fee.
pub fn fee_source(envelope: &TransactionEnvelope) -> AccountId
    ensures { result ≡ spec.fee_source_of envelope.now }
{
    match envelope {
        TransactionEnvelope::V0(signed) => AccountId(signed.tx.source_account_ed25519),
        TransactionEnvelope::V1(signed) => signed.tx.source_account.account_id(),
        TransactionEnvelope::FeeBump(signed) => signed.tx.fee_source.account_id(),
    }
}

/// A number, or 0 where it is below 0.
pub fn not_below_0(number: i64) -> u64
    ensures number { result ≡ spec.not_below_0 number }
    ensures fits { result < 2 ^ 63 }
{
    if number < 0 { 0 } else { number.unsigned_abs() }
}

/// The most that may be charged, in stroops.
pub fn bid(envelope: &TransactionEnvelope) -> u64
    ensures bid { result ≡ spec.bid_of envelope.now }
    ensures fits { result < 2 ^ 63 }
{
    match envelope {
        TransactionEnvelope::V0(signed) => u64::from(signed.tx.fee),
        TransactionEnvelope::V1(signed) => u64::from(signed.tx.fee),
        TransactionEnvelope::FeeBump(signed) => not_below_0(signed.tx.fee),
    }
}
