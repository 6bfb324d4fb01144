//! An image, taken from the bytes of which it is a prefix. No bytes are held twice at the end, and the longest file is
//! never copied: it keeps the memory into which all of them were read.

ghost use Rattle.std.specs.Prelude.{◌≡◌, ◌<◌, ◌≤◌, ℕ, map, length, IfOk, OnErr, Ok};
ghost use Rattle.xdr_core.specs.Format.{IsBytes};
ghost use Rattle.record_stream.specs.Measured.{image_end};
ghost use Rattle.record_stream.specs.Layouts as spec;

use crate::ahead::without_prefix;
use crate::layout::{Layout, NOTHING, Span, layout_of};
use item_list::ItemList;
use std::alloc::{AllocError, Global};
use std::mem;
use xdr_header::StartImage;

/// The index of a file that no other one is longer than.
fn longest(files: &[Span]) -> usize
    requires { 0 < length files.now }
    ensures within { result < length files.now }
    ensures longest { spec.IsLongest files.now result }
{
    let mut longest = 0;
    for index in 1..files.len() {
        if files[longest].len < files[index].len {
            longest = index;
        }
    }
    longest
}

/// A copy of a piece of a text.
fn copy_of(alloc: Global, text: &[u8], span: Span) -> Result<ItemList<u8>, AllocError>
    requires { spec.IsWithin text.now span }
    ensures { IfOk result (λ bytes. bytes ≡ spec.piece text.now span) }
{
    let piece = text.split_at(span.start).1.split_at(span.len).0;
    ItemList::from_slice(alloc, piece)
}

/// Copies of pieces of a text.
fn copies_of(
    alloc: Global,
    text: &[u8],
    spans: &[Span],
) -> Result<ItemList<ItemList<u8>>, AllocError>
    requires { spec.AreWithin text.now spans.now }
    ensures { IfOk result (λ copies. copies ≡ map (spec.piece text.now) spans.now) }
{
    let mut copies = ItemList::new(alloc);
    for span in spans {
        copies.push(copy_of(alloc, text, *span)?)?;
    }
    Ok(copies)
}

/// A copy of the image that is laid out so in a text.
fn image_of(alloc: Global, text: &[u8], layout: &Layout) -> Result<StartImage, AllocError>
    requires header { spec.IsWithin text.now layout.now.header }
    requires files { spec.AreWithin text.now layout.now.files }
    ensures { IfOk result (λ image. image ≡ spec.image_in text.now layout.now) }
{
    let header = copy_of(alloc, text, layout.header)?;
    let files = copies_of(alloc, text, &layout.files)?;
    Ok(StartImage { header, files })
}

/// A piece of bytes, in the memory that all of them had. What it doesn't need of that is given back.
fn only(mut bytes: Vec<u8>, span: Span) -> Vec<u8>
    requires { spec.IsWithin bytes.items span }
    ensures { result.items ≡ spec.piece bytes.items span }
{
    bytes.copy_within(span.start..span.start + span.len, 0);
    bytes.truncate(span.len);
    bytes.shrink_to_fit();
    bytes
}

/// Takes the image at the start of the bytes ahead away from them. Where memory is refused they stay as they were.
pub fn take_image(alloc: Global, ahead: &mut Vec<u8>) -> Result<StartImage, AllocError>
    requires { (end : ℕ) × (image_end ahead.old.items ≡ Ok end) }
    ensures fits { IsBytes ahead.old.items }
    ensures taken { IfOk result (λ image. spec.IsTaken ahead.old.items ahead.new.items image) }
    ensures refused { OnErr result (ahead.new.items ≡ ahead.old.items) }
{
    let Ok(mut layout) = layout_of(ahead.as_slice()) else {
        unreachable!()
    };
    let index = longest(&layout.files);
    let file = layout.files[index];
    // the longest file stays where it is, and nothing is copied in its place
    layout.files[index] = NOTHING;
    let mut image = image_of(alloc, ahead.as_slice(), &layout)?;
    let rest = without_prefix(alloc, ahead.as_slice(), layout.end)?;
    let bytes = mem::replace(ahead, rest);
    let left = ItemList::from_vec(only(bytes, file));
    image.files.set(index, left);
    Ok(image)
}
