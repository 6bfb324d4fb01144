//! Signers and their keys.

ghost use Rattle.std.specs.Prelude.{◌≡◌, OnOk};
ghost use Rattle.xdr_core.specs.Position.{Reads, itself};
ghost use Rattle.xdr_entries.specs.Basic as spec;

use crate::bytes64::{read_bytes64, write_bytes64};
use crate::ids::{read_hash, write_hash};
use ledger_types::{Signer, SignerKey};
use std::alloc::{AllocError, Global};
use xdr_core::{Builder, Cursor, Decode, Encode, ReadFault, XdrFault, XdrKind};

/// SIGNER_KEY_TYPE_ED25519 (Stellar-types.x).
const SIGNER_KEY_TYPE_ED25519: i32 = 0;

/// SIGNER_KEY_TYPE_PRE_AUTH_TX (Stellar-types.x).
const SIGNER_KEY_TYPE_PRE_AUTH_TX: i32 = 1;

/// SIGNER_KEY_TYPE_HASH_X (Stellar-types.x).
const SIGNER_KEY_TYPE_HASH_X: i32 = 2;

/// SIGNER_KEY_TYPE_ED25519_SIGNED_PAYLOAD (Stellar-types.x).
const SIGNER_KEY_TYPE_ED25519_SIGNED_PAYLOAD: i32 = 3;

/// Reads a signer's key.
#[tactic(auto, unfolding(crate::specs::Basic::signer_key))]
pub fn read_signer_key(cursor: &mut Cursor<'_>) -> Result<SignerKey, XdrFault>
    ensures { Reads itself result cursor.old cursor.new (spec.signer_key.read cursor.old) }
{
    let mut ahead = cursor.fork();
    let key = match ahead.i32()? {
        SIGNER_KEY_TYPE_ED25519 => SignerKey::Ed25519(ahead.array::<32>()?),
        SIGNER_KEY_TYPE_PRE_AUTH_TX => SignerKey::PreAuthTx(read_hash(&mut ahead)?),
        SIGNER_KEY_TYPE_HASH_X => SignerKey::HashX(read_hash(&mut ahead)?),
        SIGNER_KEY_TYPE_ED25519_SIGNED_PAYLOAD => {
            let ed25519 = ahead.array::<32>()?;
            let payload = read_bytes64(&mut ahead)?;
            SignerKey::SignedPayload { ed25519, payload }
        }
        _ => return Err(cursor.fault(XdrKind::BadEnum)),
    };
    *cursor = ahead;
    Ok(key)
}

/// Writes a signer's key.
#[tactic(auto, unfolding(crate::specs::Basic::signer_key))]
pub fn write_signer_key(value: &SignerKey, builder: &mut Builder) -> Result<(), AllocError>
    ensures { OnOk result (builder.new ≡ spec.signer_key.onto builder.old value.now) }
{
    match value {
        SignerKey::Ed25519(key) => {
            builder.i32(SIGNER_KEY_TYPE_ED25519)?;
            builder.fixed(key)
        }
        SignerKey::PreAuthTx(hash) => {
            builder.i32(SIGNER_KEY_TYPE_PRE_AUTH_TX)?;
            write_hash(hash, builder)
        }
        SignerKey::HashX(hash) => {
            builder.i32(SIGNER_KEY_TYPE_HASH_X)?;
            write_hash(hash, builder)
        }
        SignerKey::SignedPayload { ed25519, payload } => {
            builder.i32(SIGNER_KEY_TYPE_ED25519_SIGNED_PAYLOAD)?;
            builder.fixed(ed25519)?;
            write_bytes64(payload, builder)
        }
    }
}

/// Signers' keys, as a format.
pub enum SignerKeyFormat {}

impl Decode for SignerKeyFormat {
    type Value = SignerKey;

    type Failure = ReadFault;

    ghost format = { spec.signer_key };

    fn decode(_alloc: Global, cursor: &mut Cursor<'_>) -> Result<SignerKey, ReadFault> {
        Ok(read_signer_key(cursor)?)
    }
}

impl Encode for SignerKeyFormat {
    #[tactic(auto, using(crate::proofs::AllLaws::written_values))]
    fn encode(value: &SignerKey, builder: &mut Builder) -> Result<(), AllocError> {
        write_signer_key(value, builder)
    }
}

/// Reads a signer.
#[tactic(auto, unfolding(crate::specs::Basic::signer))]
pub fn read_signer(cursor: &mut Cursor<'_>) -> Result<Signer, XdrFault>
    ensures { Reads itself result cursor.old cursor.new (spec.signer.read cursor.old) }
{
    let mut ahead = cursor.fork();
    let key = read_signer_key(&mut ahead)?;
    let weight = ahead.u32()?;
    *cursor = ahead;
    Ok(Signer { key, weight })
}

/// Writes a signer.
#[tactic(auto, unfolding(crate::specs::Basic::signer))]
pub fn write_signer(value: &Signer, builder: &mut Builder) -> Result<(), AllocError>
    ensures { OnOk result (builder.new ≡ spec.signer.onto builder.old value.now) }
{
    write_signer_key(&value.key, builder)?;
    builder.u32(value.weight)
}

/// Signers, as a format.
pub enum SignerFormat {}

impl Decode for SignerFormat {
    type Value = Signer;

    type Failure = ReadFault;

    ghost format = { spec.signer };

    fn decode(_alloc: Global, cursor: &mut Cursor<'_>) -> Result<Signer, ReadFault> {
        Ok(read_signer(cursor)?)
    }
}

impl Encode for SignerFormat {
    #[tactic(auto, using(crate::proofs::AllLaws::written_values))]
    fn encode(value: &Signer, builder: &mut Builder) -> Result<(), AllocError> {
        write_signer(value, builder)
    }
}
