//! What is written after the gate of an image file, in format 2.

ghost use Rattle.std.specs.Prelude.{◌≡◌, ◌≤◌, ◌<◌, ◌-◌, ◌^◌, ◌+◌, ◌++◌, IfOk, OnOk, length, take, drop};
ghost use Rattle.byteorder.specs.Endian.{big_bytes};
ghost use Rattle.sha2.specs.Sha256.{sha256};
ghost use Rattle.xdr_core.specs.Format.{IsBytes};
ghost use Rattle.xdr_header.specs.Image.{start_image};
ghost use Rattle.image_store.specs.ImageFiles.{after_gate, top_bit};
ghost use Rattle.image_store.specs.Turning.{room};

use crate::head::word_of;
use byteorder::{BigEndian, ByteOrder};
use hash_ids::hash;
use ledger_types::Hash;
use std::alloc::{AllocError, Global};
use xdr_core::Builder;
use xdr_header::{StartImage, write_start_image};

/// How many bytes are between the gate and the image's length.
const LENGTH_AT: usize = 40;

/// How many bytes the image's length and its hash have.
const MEASURES_LEN: usize = 40;

/// How many bytes a length has.
const LENGTH_LEN: usize = 8;

/// Puts room for an image's length and hash.
#[tactic(auto, unfolding(crate::specs::Turning::room))]
fn put_room(builder: &mut Builder) -> Result<(), AllocError>
    ensures { OnOk result (builder.new ≡ builder.old ++ room) }
{
    builder.raw(&[0; MEASURES_LEN])
}

/// The word of the epoch, the network id, room for a length and a hash, and the image.
#[tactic(auto, unfolding(xdr_core::specs::Leaves::u64))]
fn unmeasured(
    alloc: Global,
    epoch: u64,
    network: &Hash,
    image: &StartImage,
) -> Result<Vec<u8>, AllocError>
    requires epoch { epoch < 2 ^ 63 }
    requires within { start_image.within image.now }
    ensures piece { IfOk result (λ piece. piece.items
        ≡ (big_bytes 8 (top_bit + epoch) ++ network.now.0) ++ room ++ start_image.encoding image.now) }
    ensures network { length network.now.0 ≡ 32 }
{
    let mut builder = Builder::new(alloc);
    builder.u64(word_of(epoch))?;
    builder.raw(&network.0)?;
    put_room(&mut builder)?;
    write_start_image(image, &mut builder)?;
    Ok(builder.finish())
}

/// Puts the length and the hash of the image, which follows them, in their place.
fn put_measures(piece: &mut [u8])
    requires { 80 ≤ length piece.old }
    ensures put { piece.new ≡ take 40 piece.old ++ big_bytes 8 (length piece.old - 80)
        ++ sha256 (drop 80 piece.old) ++ drop 80 piece.old }
    ensures len { length piece.new ≡ length piece.old }
{
    let (_, rest) = piece.split_at_mut(LENGTH_AT);
    let (measures, image) = rest.split_at_mut(MEASURES_LEN);
    BigEndian::write_u64(measures, image.len() as u64);
    let (_, digest) = measures.split_at_mut(LENGTH_LEN);
    digest.copy_from_slice(&hash(image).0);
}

/// Bytes, of which each is below 256.
fn as_bytes(piece: &[u8]) -> &[u8]
    ensures same { result.now ≡ piece.now }
    ensures bytes { IsBytes result.now }
{
    piece
}

/// The word of the epoch, the network id, the image's length, its hash and the image.
pub(crate) fn after_gate(
    alloc: Global,
    epoch: u64,
    network: &Hash,
    image: &StartImage,
) -> Result<Vec<u8>, AllocError>
    requires epoch { epoch < 2 ^ 63 }
    requires within { start_image.within image.now }
    ensures piece { IfOk result
        (λ piece. piece.items ≡ after_gate epoch network.now.0 (start_image.encoding image.now)) }
    ensures network { length network.now.0 ≡ 32 }
    ensures sized { OnOk result (start_image.sized image.now) }
    ensures fits { OnOk result (length (start_image.encoding image.now) < 256 ^ 8) }
{
    let mut piece = unmeasured(alloc, epoch, network, image)?;
    put_measures(piece.as_mut_slice());
    let _ = as_bytes(piece.as_slice());
    Ok(piece)
}
