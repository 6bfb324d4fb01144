//! Signatures.

ghost use Rattle.std.specs.Prelude.{◌≡◌, OnOk};
ghost use Rattle.xdr_core.specs.Position.{Reads};
ghost use Rattle.xdr_core.specs.ReadFault.{cause_of};
ghost use Rattle.xdr_tx.specs.Transactions as spec;

use item_list::ItemList;
use op_types::DecoratedSignature;
use std::alloc::{AllocError, Global};
use xdr_core::{Builder, Cursor, Decode, Encode, ReadFault};

/// The most signatures of an envelope (TransactionEnvelope in Stellar-transaction.x).
pub const MAX_SIGNATURES: u32 = 20;

/// The most bytes of a signature (Signature in Stellar-types.x).
const MAX_SIGNATURE_LEN: u32 = 64;

/// Reads a signature and its hint.
#[tactic(auto, unfolding(crate::specs::Transactions::decorated_signature))]
pub fn read_decorated_signature(
    alloc: Global,
    cursor: &mut Cursor<'_>,
) -> Result<DecoratedSignature, ReadFault>
    ensures { Reads cause_of result cursor.old cursor.new (spec.decorated_signature.read cursor.old) }
{
    let mut ahead = cursor.fork();
    let hint = ahead.array::<4>()?;
    let signature = ItemList::from_slice(alloc, ahead.var(MAX_SIGNATURE_LEN)?)?;
    *cursor = ahead;
    Ok(DecoratedSignature { hint, signature })
}

/// Writes a signature and its hint.
#[tactic(auto, unfolding(crate::specs::Transactions::decorated_signature))]
pub fn write_decorated_signature(
    value: &DecoratedSignature,
    builder: &mut Builder,
) -> Result<(), AllocError>
    requires { spec.decorated_signature.within value.now }
    ensures { OnOk result (builder.new ≡ spec.decorated_signature.onto builder.old value.now) }
{
    builder.fixed(&value.hint)?;
    builder.var(value.signature.as_slice(), MAX_SIGNATURE_LEN)
}

/// Signatures, as a format.
pub enum DecoratedSignatureFormat {}

impl Decode for DecoratedSignatureFormat {
    type Value = DecoratedSignature;

    type Failure = ReadFault;

    ghost format = { spec.decorated_signature };

    fn decode(alloc: Global, cursor: &mut Cursor<'_>) -> Result<DecoratedSignature, ReadFault> {
        read_decorated_signature(alloc, cursor)
    }
}

impl Encode for DecoratedSignatureFormat {
    #[tactic(auto, using(crate::proofs::TransactionLaws::signature_written))]
    fn encode(value: &DecoratedSignature, builder: &mut Builder) -> Result<(), AllocError> {
        write_decorated_signature(value, builder)
    }
}
