//! Vouches.

ghost use Rattle.std.specs.Prelude.{◌≡◌, OnOk};
ghost use Rattle.xdr_core.specs.Position.{Reads, itself};
ghost use Rattle.xdr_header.specs.Vouches as spec;

use op_types::Vouch;
use std::alloc::{AllocError, Global};
use xdr_core::{Builder, Cursor, Decode, Encode, ReadFault, XdrFault, XdrKind};
use xdr_entries::{read_bytes64, read_hash, write_bytes64, write_hash};

/// The arm of a signature over the hash of a transaction.
const VOUCH_HASH: i32 = 0;

/// The arm of a signature over a payload.
const VOUCH_PAYLOAD: i32 = 3;

/// Reads a vouch.
#[tactic(auto, unfolding(crate::specs::Vouches::vouch))]
pub fn read_vouch(cursor: &mut Cursor<'_>) -> Result<Vouch, XdrFault>
    ensures { Reads itself result cursor.old cursor.new (spec.vouch.read cursor.old) }
{
    let mut ahead = cursor.fork();
    let vouch = match ahead.i32()? {
        VOUCH_HASH => {
            let ed25519 = ahead.array::<32>()?;
            let hash = read_hash(&mut ahead)?;
            let signature = read_bytes64(&mut ahead)?;
            Vouch::Hash {
                ed25519,
                hash,
                signature,
            }
        }
        VOUCH_PAYLOAD => {
            let ed25519 = ahead.array::<32>()?;
            let payload = read_bytes64(&mut ahead)?;
            let signature = read_bytes64(&mut ahead)?;
            Vouch::Payload {
                ed25519,
                payload,
                signature,
            }
        }
        _ => return Err(cursor.fault(XdrKind::BadEnum)),
    };
    *cursor = ahead;
    Ok(vouch)
}

/// Writes a vouch.
#[tactic(auto, unfolding(crate::specs::Vouches::vouch))]
pub fn write_vouch(value: &Vouch, builder: &mut Builder) -> Result<(), AllocError>
    ensures { OnOk result (builder.new ≡ spec.vouch.onto builder.old value.now) }
{
    match value {
        Vouch::Hash {
            ed25519,
            hash,
            signature,
        } => {
            builder.i32(VOUCH_HASH)?;
            builder.fixed(ed25519)?;
            write_hash(hash, builder)?;
            write_bytes64(signature, builder)
        }
        Vouch::Payload {
            ed25519,
            payload,
            signature,
        } => {
            builder.i32(VOUCH_PAYLOAD)?;
            builder.fixed(ed25519)?;
            write_bytes64(payload, builder)?;
            write_bytes64(signature, builder)
        }
    }
}

/// Vouches, as a format.
pub enum VouchFormat {}

impl Decode for VouchFormat {
    type Value = Vouch;

    type Failure = ReadFault;

    ghost format = { spec.vouch };

    fn decode(_alloc: Global, cursor: &mut Cursor<'_>) -> Result<Vouch, ReadFault> {
        Ok(read_vouch(cursor)?)
    }
}

impl Encode for VouchFormat {
    #[tactic(auto, using(crate::proofs::RecordLaws::vouch_written))]
    fn encode(value: &Vouch, builder: &mut Builder) -> Result<(), AllocError> {
        write_vouch(value, builder)
    }
}
