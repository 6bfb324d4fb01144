//! The preconditions of a transaction (CAP-0021).

ghost use Rattle.std.specs.Prelude.{◌≡◌};
ghost use Rattle.std.specs.List.{list_any};
ghost use Rattle.std.specs.Ordering.{eq_by_cmp};
ghost use Rattle.ledger_types.specs.KeyOrder.{signer_key_cmp};
ghost use Rattle.tx_apply.specs.Preconditions as spec;

use ledger_types::SignerKey;
use op_types::{LedgerBounds, Preconditions, TimeBounds};
use std::cmp::Ordering;

/// The time bounds, or none.
pub(crate) fn time_bounds_of(cond: &Preconditions) -> Option<TimeBounds>
    ensures { result ≡ spec.time_bounds_of cond.now }
{
    match cond {
        Preconditions::None => None,
        Preconditions::Time(bounds) => Some(*bounds),
        Preconditions::V2(cond) => cond.time_bounds,
    }
}

/// The ledger bounds, or none.
pub(crate) fn ledger_bounds_of(cond: &Preconditions) -> Option<LedgerBounds>
    ensures { result ≡ spec.ledger_bounds_of cond.now }
{
    match cond {
        Preconditions::V2(cond) => cond.ledger_bounds,
        _ => None,
    }
}

/// minSeqNum: the least sequence number that the source may have, or none.
pub(crate) fn min_seq_num_of(cond: &Preconditions) -> Option<i64>
    ensures { result ≡ spec.min_seq_num_of cond.now }
{
    match cond {
        Preconditions::V2(cond) => cond.min_seq_num,
        _ => None,
    }
}

/// minSeqAge: how many seconds ago the source's sequence number was set, at least.
pub(crate) fn min_seq_age_of(cond: &Preconditions) -> u64
    ensures { result ≡ spec.min_seq_age_of cond.now }
{
    match cond {
        Preconditions::V2(cond) => cond.min_seq_age,
        _ => 0,
    }
}

/// minSeqLedgerGap: how many ledgers ago it was, at least.
pub(crate) fn min_seq_ledger_gap_of(cond: &Preconditions) -> u32
    ensures { result ≡ spec.min_seq_ledger_gap_of cond.now }
{
    match cond {
        Preconditions::V2(cond) => cond.min_seq_ledger_gap,
        _ => 0,
    }
}

/// extraSigners: who has to sign beside the source.
pub(crate) fn extra_signers_of(cond: &Preconditions) -> &[SignerKey]
    ensures { result.now ≡ spec.extra_signers_of cond.now }
{
    match cond {
        Preconditions::V2(cond) => cond.extra_signers.as_slice(),
        _ => &[],
    }
}

/// Whether a time is before the bounds.
pub(crate) fn is_before_time(close_time: u64, bounds: &Option<TimeBounds>) -> bool
    ensures { result ≡ spec.is_before_time close_time bounds.now }
{
    match bounds {
        None => false,
        Some(bounds) => close_time < bounds.min_time,
    }
}

/// Whether a time is after the bounds.
pub(crate) fn is_after_time(close_time: u64, bounds: &Option<TimeBounds>) -> bool
    ensures { result ≡ spec.is_after_time close_time bounds.now }
{
    match bounds {
        None => false,
        Some(bounds) => bounds.max_time != 0 && bounds.max_time < close_time,
    }
}

/// Whether a ledger is before the bounds.
pub(crate) fn is_before_ledger(seq: u32, bounds: &Option<LedgerBounds>) -> bool
    ensures { result ≡ spec.is_before_ledger seq bounds.now }
{
    match bounds {
        None => false,
        Some(bounds) => seq < bounds.min_ledger,
    }
}

/// Whether a ledger is after the bounds.
pub(crate) fn is_after_ledger(seq: u32, bounds: &Option<LedgerBounds>) -> bool
    ensures { result ≡ spec.is_after_ledger seq bounds.now }
{
    match bounds {
        None => false,
        Some(bounds) => bounds.max_ledger != 0 && bounds.max_ledger <= seq,
    }
}

/// Whether a key is a signed payload of no bytes.
fn is_empty_payload(key: &SignerKey) -> bool
    ensures { result ≡ spec.is_empty_payload key.now }
{
    match key {
        SignerKey::SignedPayload { payload, .. } => payload.as_slice().is_empty(),
        _ => false,
    }
}

/// Whether two keys are the same.
#[tactic(auto, using(ledger_types::proofs::KeyOrdering::signer_key_laws))]
fn is_same_key(a: &SignerKey, b: &SignerKey) -> bool
    ensures { result ≡ eq_by_cmp signer_key_cmp a.now b.now }
{
    a.cmp(b) == Ordering::Equal
}

/// Whether a key is among others.
fn is_among(key: &SignerKey, others: &[SignerKey]) -> bool
    ensures { result ≡ list_any (eq_by_cmp signer_key_cmp key.now) others.now }
{
    others.iter().any(|other| is_same_key(key, other))
}

/// Whether some two keys are the same.
#[tactic(auto, unfolding(crate::specs::Preconditions::have_duplicates))]
fn have_duplicates(keys: &[SignerKey]) -> bool
    ensures { result ≡ spec.have_duplicates keys.now }
{
    match keys {
        [] => false,
        [first, others @ ..] => is_among(first, others) || have_duplicates(others),
    }
}

/// Whether some key is a signed payload of no bytes.
fn have_empty_payload(keys: &[SignerKey]) -> bool
    ensures { result ≡ list_any spec.is_empty_payload keys.now }
{
    keys.iter().any(|key| is_empty_payload(key))
}

/// Whether some two extra signers are the same, or one has an empty payload.
pub(crate) fn are_malformed(keys: &[SignerKey]) -> bool
    ensures { result ≡ spec.are_malformed keys.now }
{
    have_duplicates(keys) || have_empty_payload(keys)
}
