//! The hash that signatures are made over, for each of the three kinds of envelopes.

ghost use Rattle.std.specs.Prelude.{◌≡◌, IfOk};
ghost use Rattle.xdr_tx.specs.Transactions as spec;
ghost use Rattle.value_hashes.specs.Hashes.{transaction_hash_of, transaction_v0_hash_of, fee_bump_hash_of};

use hash_ids::tx_hash;
use ledger_types::{ENVELOPE_TYPE_TX, ENVELOPE_TYPE_TX_FEE_BUMP, Hash};
use op_types::{FeeBumpTransactionEnvelope, TransactionV0Envelope, TransactionV1Envelope};
use std::alloc::{AllocError, Global};
use xdr_core::Builder;
use xdr_tx::{write_fee_bump_transaction, write_transaction, write_transaction_v0};

/// KEY_TYPE_ED25519 (Stellar-types.x).
const KEY_TYPE_ED25519: i32 = 0;

/// The hash of a transaction.
#[tactic(auto, unfolding(xdr_tx::specs::Transactions::transaction_v1_envelope))]
pub fn transaction_hash(
    alloc: Global,
    network: &Hash,
    envelope: &TransactionV1Envelope,
) -> Result<Hash, AllocError>
    requires { spec.transaction_v1_envelope.within envelope.now }
    ensures { IfOk result (λ hash. hash ≡ transaction_hash_of network.now envelope.now.tx) }
{
    let mut builder = Builder::new(alloc);
    write_transaction(&envelope.tx, &mut builder)?;
    tx_hash(network, ENVELOPE_TYPE_TX as u32, builder.as_slice())
}

/// The hash of a transaction of the first version.
#[tactic(auto, unfolding(xdr_tx::specs::Transactions::transaction_v0_envelope, xdr_core::specs::Leaves::i32))]
pub fn transaction_v0_hash(
    alloc: Global,
    network: &Hash,
    envelope: &TransactionV0Envelope,
) -> Result<Hash, AllocError>
    requires { spec.transaction_v0_envelope.within envelope.now }
    ensures { IfOk result (λ hash. hash ≡ transaction_v0_hash_of network.now envelope.now.tx) }
{
    let mut builder = Builder::new(alloc);
    builder.i32(KEY_TYPE_ED25519)?;
    write_transaction_v0(&envelope.tx, &mut builder)?;
    tx_hash(network, ENVELOPE_TYPE_TX as u32, builder.as_slice())
}

/// The hash of a fee bump.
#[tactic(auto, unfolding(xdr_tx::specs::Transactions::fee_bump_envelope))]
pub fn fee_bump_hash(
    alloc: Global,
    network: &Hash,
    envelope: &FeeBumpTransactionEnvelope,
) -> Result<Hash, AllocError>
    requires { spec.fee_bump_envelope.within envelope.now }
    ensures { IfOk result (λ hash. hash ≡ fee_bump_hash_of network.now envelope.now.tx) }
{
    let mut builder = Builder::new(alloc);
    write_fee_bump_transaction(&envelope.tx, &mut builder)?;
    tx_hash(
        network,
        ENVELOPE_TYPE_TX_FEE_BUMP as u32,
        builder.as_slice(),
    )
}
