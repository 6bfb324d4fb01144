//! The items of a bucket's file, one after another, each after its record mark.

ghost use Rattle.std.specs.Prelude.{◌≡◌, [], IsSomeAnd};
ghost use Rattle.ledger_types.specs.declared.bucket.BucketEntry.{BucketEntry as AnItem};
ghost use Rattle.xdr_core.specs.Position.{Position, start_of};
ghost use Rattle.bucket_items.specs.Item as item;
ghost use Rattle.bucket_items.specs.MarkedItem as spec;

use crate::item::{BucketEntryType, BucketItem, item_of, type_of};
use ledger_types::BucketEntry;
use std::alloc::Global;
use xdr_core::{Cursor, ReadFault};
use xdr_entries::read_bucket_entry;

/// The greatest length of an item.
const MAX_ITEM_LEN: u32 = 2_147_483_647;

/// Reads an item that is all that is ahead.
fn read_to_end(alloc: Global, entire: &Cursor<'_>) -> Result<BucketEntry, ReadFault>
    ensures { spec.ReadsEntire result entire.now }
{
    let mut ahead = entire.fork();
    let entry = read_bucket_entry(alloc, &mut ahead)?;
    ahead.end()?;
    Ok(entry)
}

/// Reads the next item after its mark, in place. The offsets of faults are those of the entire text, and an item that
/// is too short for its fields is so at its own end.
pub fn read_marked_item<'a>(
    alloc: Global,
    cursor: &mut Cursor<'a>,
) -> Result<BucketItem<'a>, ReadFault>
    ensures { spec.ReadsItem result cursor.old cursor.new }
{
    let mut ahead = cursor.fork();
    let text = ahead.mark(MAX_ITEM_LEN)?;
    let inner = cursor.fork().marked(MAX_ITEM_LEN)?;
    let entry = read_to_end(alloc, &inner)?;
    *cursor = ahead;
    Ok(item_of(text, type_of(&entry)))
}

/// The type of an item with this discriminant.
fn type_with(discriminant: i32) -> Option<BucketEntryType>
    ensures { result ≡ item.type_with discriminant }
{
    match discriminant {
        -1 => Some(BucketEntryType::Meta),
        0 => Some(BucketEntryType::Live),
        1 => Some(BucketEntryType::Dead),
        2 => Some(BucketEntryType::Init),
        _ => None,
    }
}

/// What the item that is all of a text says of its key, by its discriminant.
fn type_in(text: &[u8]) -> Option<BucketEntryType>
    ensures { (p : Position) (e : AnItem) → p.rest ≡ text.now → item.entire_at p ≡ Ok e
        → result ≡ Some (item.item_type e) }
{
    let mut ahead = Cursor::new(text);
    match ahead.i32() {
        Ok(discriminant) => type_with(discriminant),
        Err(_) => None,
    }
}

/// The next item of a text that was read before, in place; `None` at the text's end. It takes no memory, and judges no
/// more of the text than it needs.
pub fn next_item<'a>(cursor: &mut Cursor<'a>) -> Option<BucketItem<'a>>
    ensures item { (e : AnItem) (q : Position)
        → spec.item_at cursor.old ≡ Ok (e, q) → spec.TakesItem result cursor.new e q }
    ensures end { cursor.old.rest ≡ [] → (result ≡ None) × (cursor.new ≡ cursor.old) }
{
    match cursor.mark(MAX_ITEM_LEN) {
        Ok(text) => shown(text),
        Err(_) => None,
    }
}

/// The text of the item whose record is the prefix of a text, without its record mark. It reads no more than the mark.
/// Where the prefix is no record the answer says nothing.
pub fn item_text(text: &[u8]) -> &[u8]
    ensures { (e : AnItem) (q : Position) → spec.item_at (start_of text.now) ≡ Ok (e, q)
        → item.IsItemText result.now e }
{
    let mut ahead = Cursor::new(text);
    match ahead.mark(MAX_ITEM_LEN) {
        Ok(record) => record,
        Err(_) => text,
    }
}

/// The item that is all of a text.
fn shown(text: &[u8]) -> Option<BucketItem<'_>>
    ensures { (p : Position) (e : AnItem)
        → p.rest ≡ text.now → item.entire_at p ≡ Ok e → IsSomeAnd result (λ shown. item.Shows shown text.now e) }
{
    match type_in(text) {
        Some(mark) => Some(item_of(text, mark)),
        None => None,
    }
}
