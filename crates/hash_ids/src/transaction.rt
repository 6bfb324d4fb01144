//! Hashes of transactions and of sets of them.

ghost use Rattle.std.specs.Prelude.{◌≡◌, Ok, map};
ghost use Rattle.hash_ids.specs.Ids.{tx_hash_of, set_hash_of};

use byteorder::{BigEndian, ByteOrder};
use ledger_types::Hash;
use sha2::{Digest, Sha256};
use std::alloc::AllocError;
use std::convert::AsSlice;

/// The hash of a transaction whose encoding is `tx`. `kind` is the type of its envelope, `ENVELOPE_TYPE_TX` or
/// `ENVELOPE_TYPE_TX_FEE_BUMP`. A transaction of the first version is encoded after the four zero bytes of its key's
/// type.
#[tactic(auto, unfolding(xdr_core::specs::Leaves::u32))]
pub fn tx_hash(network: &Hash, kind: u32, tx: &[u8]) -> Result<Hash, AllocError>
    ensures { result ≡ Ok (tx_hash_of network.now kind tx.now) }
{
    let mut kind_bytes = [0u8; 4];
    BigEndian::write_u32(&mut kind_bytes, kind);
    let mut hasher = Sha256::new();
    hasher.update(network.0.as_slice());
    hasher.update(kind_bytes.as_slice());
    hasher.update(tx);
    Ok(Hash(hasher.finalize()))
}

/// The hash of a transaction set, from the hash of the ledger before it and the encodings of its envelopes, which are
/// given in rising order of their hashes.
pub fn set_hash<T: AsSlice<u8>>(previous: &Hash, envelopes: &[T]) -> Result<Hash, AllocError>
    ensures { result ≡ Ok (set_hash_of previous.now (map (λ envelope. T.items envelope) envelopes.now)) }
{
    let mut hasher = Sha256::new();
    hasher.update(previous.0.as_slice());
    for envelope in envelopes {
        hasher.update(envelope.as_slice());
    }
    Ok(Hash(hasher.finalize()))
}
