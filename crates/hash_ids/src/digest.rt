//! Hashes of complete texts.

ghost use Rattle.std.specs.Prelude.{◌≡◌, Ok};
ghost use Rattle.hash_ids.specs.Ids.{hash_of, network_id_of};

use ledger_types::Hash;
use sha2::{Digest, Sha256};
use std::alloc::AllocError;

/// SHA-256 of a text. It takes no memory.
pub fn hash(text: &[u8]) -> Hash
    ensures { result ≡ hash_of text.now }
{
    Hash(Sha256::digest(text))
}

/// The id of the network with this passphrase.
pub fn network_id(passphrase: &str) -> Result<Hash, AllocError>
    ensures { result ≡ Ok (network_id_of passphrase.now) }
{
    Ok(hash(passphrase.as_bytes()))
}

/// The hash of an envelope with its signatures, from its encoding.
pub fn full_hash(envelope: &[u8]) -> Result<Hash, AllocError>
    ensures { result ≡ Ok (hash_of envelope.now) }
{
    Ok(hash(envelope))
}

/// The hash of a ledger's header, from its encoding.
pub fn header_hash(bytes: &[u8]) -> Result<Hash, AllocError>
    ensures { result ≡ Ok (hash_of bytes.now) }
{
    Ok(hash(bytes))
}
