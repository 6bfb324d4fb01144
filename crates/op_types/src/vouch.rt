//! What an outside verifier says of signatures.

use ledger_types::{Bytes64, Hash};

/// An outside verifier's word that an Ed25519 signature (RFC 8032) is valid. The ledger believes it.
#[derive(Clone, Copy)]
pub enum Vouch {
    /// Arm 0: the key made the signature over the hash of a transaction.
    Hash {
        ed25519: [u8; 32],
        hash: Hash,
        signature: Bytes64,
    },
    /// Arm 3: the key made the signature over a payload (CAP-0040).
    Payload {
        ed25519: [u8; 32],
        payload: Bytes64,
        signature: Bytes64,
    },
}
