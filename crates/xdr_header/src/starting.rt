//! Start images.

ghost use Rattle.std.specs.Prelude.{◌≡◌, ◌++◌, ◌≤◌, length, IfOk, OnOk};
ghost use Rattle.xdr_core.specs.Position.{Reads, ReadsBy, itself};
ghost use Rattle.xdr_core.specs.ReadFault.{cause_of};
ghost use Rattle.xdr_header.specs.Image as spec;

use crate::image::StartImage;
use item_list::ItemList;
use std::alloc::{AllocError, Global};
use xdr_core::{Builder, Cursor, ReadFault, XdrFault, XdrKind};

/// The bytes `SLI1`, as a discriminant.
const MAGIC: i32 = 0x534C4931;

/// The most bytes of a header.
const MAX_HEADER_LEN: u32 = 16777216;

/// How many files there are.
const FILES: u32 = 22;

/// The most bytes of the files together.
const MAX_FILES_LEN: u64 = 536870912;

/// Reads at most `max` bytes after their number, a u64, with no padding. A number above `max` is `TooLong`.
#[tactic(auto, unfolding(crate::specs::Image::file))]
pub fn read_file<'a>(max: u64, cursor: &mut Cursor<'a>) -> Result<&'a [u8], XdrFault>
    ensures reads { ReadsBy (λ bytes. bytes.now) itself result cursor.old cursor.new ((spec.file max).read cursor.old) }
    ensures fits { IfOk result (λ bytes. length bytes.now ≤ max) }
{
    let mut ahead = cursor.fork();
    let len = ahead.u64()?;
    if len > max {
        return Err(cursor.fault(XdrKind::TooLong));
    }
    let bytes = ahead.bytes(len as usize)?;
    *cursor = ahead;
    Ok(bytes)
}

/// Reads `count` files of at most `left` bytes together.
fn read_files(
    alloc: Global,
    count: u32,
    left: u64,
    cursor: &mut Cursor<'_>,
) -> Result<ItemList<ItemList<u8>>, ReadFault>
    ensures { Reads cause_of result cursor.old cursor.new ((spec.files count left).read cursor.old) }
{
    let mut ahead = cursor.fork();
    let mut files = ItemList::new(alloc);
    let mut room = left;
    for _ in 0..count {
        let bytes = read_file(room, &mut ahead)?;
        room -= bytes.len() as u64;
        files.push(ItemList::from_slice(alloc, bytes)?)?;
    }
    *cursor = ahead;
    Ok(files)
}

/// Writes files one after another, each after its length.
fn write_files(files: &[ItemList<u8>], left: u64, builder: &mut Builder) -> Result<(), AllocError>
    requires { (spec.files FILES left).within files.now }
    ensures { OnOk result (builder.new ≡ (spec.files FILES left).onto builder.old files.now) }
{
    for file in files {
        builder.u64(file.len() as u64)?;
        builder.raw(file.as_slice())?;
    }
    Ok(())
}

/// Reads a start image.
#[tactic(auto, unfolding(crate::specs::Image::start_image))]
pub fn read_start_image(alloc: Global, cursor: &mut Cursor<'_>) -> Result<StartImage, ReadFault>
    ensures { Reads cause_of result cursor.old cursor.new (spec.start_image.read cursor.old) }
{
    let mut ahead = cursor.fork();
    ahead.tag(MAGIC)?;
    let header = ItemList::from_slice(alloc, ahead.mark(MAX_HEADER_LEN)?)?;
    let files = read_files(alloc, FILES, MAX_FILES_LEN, &mut ahead)?;
    *cursor = ahead;
    Ok(StartImage { header, files })
}

/// Writes a start image.
#[tactic(auto, using(xdr_core::proofs::FormatLaws::written, crate::proofs::ImageLaws::start_image_laws))]
pub fn write_start_image(value: &StartImage, builder: &mut Builder) -> Result<(), AllocError>
    requires { spec.start_image.within value.now }
    ensures { OnOk result (builder.new ≡ builder.old ++ spec.start_image.encoding value.now) }
{
    write_image_fields(value, builder)
}

/// Writes the mark of an image, its header and its files.
#[tactic(auto, unfolding(crate::specs::Image::start_image, xdr_core::specs::Combinators::constant))]
fn write_image_fields(value: &StartImage, builder: &mut Builder) -> Result<(), AllocError>
    requires { spec.start_image.within value.now }
    ensures { OnOk result (builder.new ≡ spec.start_image.onto builder.old value.now) }
{
    builder.i32(MAGIC)?;
    builder.mark(value.header.as_slice(), MAX_HEADER_LEN)?;
    write_files(value.files.as_slice(), MAX_FILES_LEN, builder)
}
