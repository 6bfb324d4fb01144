//! A store in the directory `ledger-store`.

ghost use Rattle.std.specs.Prelude.{IfSome};
ghost use Rattle.xdr_header.specs.Image.{start_image};

use hash_ids::hash;
use image_store::{AppendBuf, Store};
use ledger_types::Hash;
use outside::{Access, DirVolume, LockFiles};
use std::alloc::{AllocError, Global};
use xdr_core::{Builder, Cursor};
use xdr_header::laws::reading_and_encoding_agree;
use xdr_header::{StartImage, read_start_image};

/// The most bytes of a record.
const MOST_OF_RECORD: usize = 16777216;

/// An epoch from here on is the last one.
const LAST_EPOCH: u64 = 9223372036854775807;

/// The encoding of an image whose first file has so many bytes, and whose others are empty.
fn image_text(alloc: Global, count: usize) -> Result<Vec<u8>, AllocError> {
    let mut text = Builder::new(alloc);
    text.raw(b"SLI1")?;
    text.u32(0x80000000)?;
    text.u64(count as u64)?;
    text.raw(vec![in alloc; 7; count]?.as_slice())?;
    for _ in 0..21 {
        text.u64(0)?;
    }
    Ok(text.finish())
}

/// The image with this encoding.
pub fn image_in(alloc: Global, text: &[u8]) -> Option<StartImage>
    ensures { IfSome result start_image.within }
{
    reading_and_encoding_agree();
    let mut cursor = Cursor::new(text);
    match read_start_image(alloc, &mut cursor) {
        Ok(image) => Some(image),
        Err(_) => None,
    }
}

/// An image with so many bytes in its first file.
fn image_of(alloc: Global, count: usize) -> Option<StartImage>
    ensures { IfSome result start_image.within }
{
    let text = image_text(alloc, count).ok()?;
    image_in(alloc, text.as_slice())
}

/// Makes a store of an image of so many bytes, where there is none.
fn make<R: LockFiles>(alloc: Global, vol: &mut DirVolume<R>, count: usize) -> Option<usize> {
    let image = image_of(alloc, count)?;
    Store::create(alloc, vol, Hash([7; 32]), &image).ok()?;
    Some(1)
}

/// Appends records of so many bytes.
fn append<R: LockFiles>(
    alloc: Global,
    vol: &mut DirVolume<R>,
    count: usize,
    size: usize,
) -> Option<usize> {
    let mut mounted = Store::mount(alloc, vol).ok()?;
    let record = vec![in alloc; 7; size.min(MOST_OF_RECORD)].ok()?;
    for _ in 0..count {
        let buf = AppendBuf::new(alloc, record.as_slice()).ok()?;
        mounted.store.append(vol, buf).ok()?;
    }
    Some(count)
}

/// Opens a store, and goes on to an image of so many bytes where that is wanted.
fn roll<R: LockFiles>(
    alloc: Global,
    vol: &mut DirVolume<R>,
    count: usize,
    goes_on: bool,
) -> Option<usize> {
    let image = image_of(alloc, count)?;
    let mut mounted = Store::mount(alloc, vol).ok()?;
    if goes_on && mounted.store.epoch() < LAST_EPOCH {
        mounted.store.roll(alloc, vol, &image).ok()?;
    }
    Some(mounted.closes.len())
}

/// Hashes the encoding of an image of so many bytes so many times, and answers the sum of the hashes' first bytes.
fn hash_image(alloc: Global, count: usize, times: usize) -> Option<usize> {
    let text = image_text(alloc, count).ok()?;
    let mut sum: usize = 0;
    for _ in 0..times {
        let digest = hash(text.as_slice());
        sum = sum.wrapping_add(digest.0[0] as usize);
    }
    Some(sum)
}

/// Runs a command on the store, where there is such a command, and answers how many records there were, how many
/// stores were made, or a sum of bytes.
pub fn pass_store<R: LockFiles + Drop>(
    alloc: Global,
    system: R,
    command: &str,
    count: usize,
    size: usize,
) -> Option<usize> {
    let mut vol = DirVolume::new(system, Access::Write);
    match command.as_bytes() {
        b"store-make" => make(alloc, &mut vol, count),
        b"store-append" => append(alloc, &mut vol, count, size),
        b"store-roll" => roll(alloc, &mut vol, count, true),
        b"store-open" => roll(alloc, &mut vol, count, false),
        b"store-hash" => hash_image(alloc, count, size),
        _ => None,
    }
}
