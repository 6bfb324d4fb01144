//! Transactions in the queues of their sources.

ghost use Rattle.std.specs.Prelude.{◌≡◌, IfOk};
ghost use Rattle.xdr_tx.specs.Transactions.{transaction_envelope};
ghost use Rattle.fee_rules.specs.Queues as spec;

use crate::envelope::{seq_num, source};
use hash_ids::full_hash;
use ledger_types::{AccountId, Hash};
use op_types::TransactionEnvelope;
use std::alloc::AllocError;

/// What decides when a transaction goes. The order of these is by source, and then as in the source's queue.
#[derive(Clone, Copy, PartialEq, Eq, PartialOrd, Ord)]
pub(crate) struct Queued {
    /// Of a fee bump, the source of the inner transaction.
    pub source: AccountId,
    pub seq_num: i64,
    /// The hash of the envelope with its signatures.
    pub full_hash: Hash,
    /// The index of the envelope in the set's list.
    pub index: u32,
}

/// A transaction in the queue of its source, whose envelope has this encoding.
pub(crate) fn queued_at(
    index: u32,
    envelope: &TransactionEnvelope,
    text: &[u8],
) -> Result<Queued, AllocError>
    requires { text.now ≡ transaction_envelope.encoding envelope.now }
    ensures { IfOk result (λ queued. queued ≡ spec.queued_of index envelope.now) }
{
    Ok(Queued {
        source: source(envelope),
        seq_num: seq_num(envelope),
        full_hash: full_hash(text)?,
        index,
    })
}
