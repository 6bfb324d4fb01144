//! The kinds of signers that signatures count, one after the other.

/// A kind of signer that signatures count.
#[derive(Clone, Copy)]
pub enum SignerKind {
    HashX,
    Ed25519,
    SignedPayload,
}
