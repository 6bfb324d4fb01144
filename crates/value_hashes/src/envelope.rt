//! The hashes of envelopes: the one that signatures are made over, and that of the envelope with its signatures.

ghost use Rattle.std.specs.Prelude.{◌≡◌, IfOk};
ghost use Rattle.xdr_tx.specs.Transactions.{transaction_envelope};
ghost use Rattle.value_hashes.specs.Hashes.{signed_hash_of, envelope_hash_of};

use crate::transaction::{fee_bump_hash, transaction_hash, transaction_v0_hash};
use hash_ids::full_hash;
use ledger_types::Hash;
use op_types::TransactionEnvelope;
use std::alloc::{AllocError, Global};
use xdr_core::Builder;
use xdr_tx::write_transaction_envelope;

/// The hash that the signatures of an envelope are made over, on the network with this id: of its transaction, or of
/// its fee bump. The envelope has an encoding: its lists and texts keep their bounds.
#[tactic(auto, unfolding(xdr_tx::specs::Transactions::transaction_envelope))]
pub fn signed_hash(
    alloc: Global,
    network: &Hash,
    envelope: &TransactionEnvelope,
) -> Result<Hash, AllocError>
    requires { transaction_envelope.within envelope.now }
    ensures { IfOk result (λ hash. hash ≡ signed_hash_of network.now envelope.now) }
{
    match envelope {
        TransactionEnvelope::V0(envelope) => transaction_v0_hash(alloc, network, envelope),
        TransactionEnvelope::V1(envelope) => transaction_hash(alloc, network, envelope),
        TransactionEnvelope::FeeBump(envelope) => fee_bump_hash(alloc, network, envelope),
    }
}

/// The hash of an envelope with its signatures, which has an encoding: its lists and texts keep their bounds.
pub fn envelope_hash(alloc: Global, envelope: &TransactionEnvelope) -> Result<Hash, AllocError>
    requires { transaction_envelope.within envelope.now }
    ensures { IfOk result (λ hash. hash ≡ envelope_hash_of envelope.now) }
{
    let mut builder = Builder::new(alloc);
    write_transaction_envelope(envelope, &mut builder)?;
    full_hash(builder.as_slice())
}
