//! The offsets of the items of a file, and the item under a key.

ghost use Rattle.std.specs.Prelude.{◌≡◌, ◌<◌, ◌++◌, drop, length, option_map, IfOk, IfSome, OnOk};
ghost use Rattle.bucket_items.specs.KeyText.{IsKeyText};
ghost use Rattle.ledger_types.specs.declared.key.LedgerKey.{LedgerKey as AKey};
ghost use Rattle.bucket_core.specs.Index as spec;
ghost use Rattle.bucket_core.specs.Reading.{IsFile};
ghost use Rattle.bucket_core.specs.Stored.{stored_in};

use crate::filter::{fingerprint, insert};
use crate::hints::{NO_HINT, first_probe, note};
use crate::stored::StoredItem;
use bucket_items::{BucketEntryType, next_item};
use std::alloc::{AllocError, Global};
use std::cmp::Ordering;
use xdr_core::Cursor;

/// Puts the offset of an item at the end of a list, unless it is META, which has no key. Offsets are of 32 bits.
fn push_offset(mark: BucketEntryType, at: usize, offsets: &mut Vec<u32>) -> Result<(), AllocError>
    ensures { OnOk result (offsets.new.items ≡ offsets.old.items ++ spec.offsets_by mark at) }
{
    match mark {
        BucketEntryType::Meta => Ok(()),
        _ => {
            let Ok(offset) = u32::try_from(at) else {
                return Err(AllocError);
            };
            offsets.push(offset)?;
            Ok(())
        }
    }
}

/// The offsets of the items of a file, without META, in the order of their keys. It reads no more of them than their
/// discriminants and keys.
pub(crate) fn offsets_of(alloc: Global, file: &[u8]) -> Result<Vec<u32>, AllocError>
    requires { IsFile file.now }
    ensures { IfOk result (λ offsets. spec.AreOffsets file.now offsets.items) }
{
    let mut offsets = Vec::new(alloc);
    let mut ahead = Cursor::new(file);
    let mut at = ahead.at();
    while let Some(item) = next_item(&mut ahead) {
        push_offset(item.mark, at, &mut offsets)?;
        at = ahead.at();
    }
    Ok(offsets)
}

/// The item at an offset of a file.
pub(crate) fn stored_at(file: &[u8], offset: u32) -> StoredItem<'_>
    requires { spec.IsItemAt file.now offset }
    ensures { result ≡ stored_in (drop offset file.now) }
{
    StoredItem::new(file.split_at(offset as usize).1)
}

/// Lets the keys of all items at some offsets of a file pass, and notes the index of each.
fn insert_all(file: &[u8], offsets: &[u32], words: &mut [u64], hints: &mut [u32])
    requires exist { spec.AreItemsAt file.now offsets.now }
    requires words { 0 < length words.old }
    ensures { spec.IsFilter words.new (spec.row_at file.now offsets.now) }
{
    let mut index = 0_u32;
    for offset in offsets {
        let fingerprint = fingerprint(stored_at(file, *offset).key());
        insert(words, fingerprint);
        note(hints, fingerprint, index);
        index = index.wrapping_add(1);
    }
}

/// A filter of the keys of all items at some offsets of a file, of about ten bits a key, and hints at their indices, of
/// 64 bits a key.
pub(crate) fn filter_of(
    alloc: Global,
    file: &[u8],
    offsets: &[u32],
) -> Result<(Vec<u64>, Vec<u32>), AllocError>
    requires { spec.AreItemsAt file.now offsets.now }
    ensures { IfOk result (λ kept. spec.IsFilter kept.0.items (spec.row_at file.now offsets.now)) }
{
    let mut words = Vec::new(alloc);
    words.resize(offsets.len() / 6 + 1, 0)?;
    let mut hints = Vec::new(alloc);
    hints.resize(offsets.len().saturating_mul(2), 0)?;
    insert_all(file, offsets, words.as_mut_slice(), hints.as_mut_slice());
    Ok((words, hints))
}

/// The item under a key among those at some offsets of a file, by the key's text, if one is there. It looks where a
/// hint says, and then halves the offsets again and again.
pub(crate) fn find_stored<'a>(
    file: &'a [u8],
    offsets: &[u32],
    hint: usize,
    key: &[u8],
) -> Option<StoredItem<'a>>
    requires exist { spec.AreItemsAt file.now offsets.now }
    requires rises { spec.IsRising (spec.row_at file.now offsets.now) }
    ensures { (k : AKey) → IsKeyText key.now k
        → option_map (λ x. x.1) result ≡ spec.value_at k (spec.row_at file.now offsets.now) }
{
    let (earlier, others) = offsets.split_at(first_probe(offsets.len(), hint));
    let Some((offset, later)) = others.split_first() else {
        return None;
    };
    let item = stored_at(file, *offset);
    match item.order(key) {
        Ordering::Less => find_stored(file, later, NO_HINT, key),
        Ordering::Equal => Some(item),
        Ordering::Greater => find_stored(file, earlier, NO_HINT, key),
    }
}

/// The first item above a key among those at some offsets of a file, by the key's text, if one is there. It looks where
/// a hint says that the key is, and then halves the offsets again and again.
pub(crate) fn stored_above<'a>(
    file: &'a [u8],
    offsets: &[u32],
    hint: usize,
    key: &[u8],
) -> Option<StoredItem<'a>>
    requires exist { spec.AreItemsAt file.now offsets.now }
    requires rises { spec.IsRising (spec.row_at file.now offsets.now) }
    ensures { (k : AKey) → IsKeyText key.now k → result ≡ spec.above k (spec.row_at file.now offsets.now) }
{
    let (earlier, others) = offsets.split_at(first_probe(offsets.len(), hint));
    let Some((offset, later)) = others.split_first() else {
        return None;
    };
    let item = stored_at(file, *offset);
    match item.order(key) {
        Ordering::Less => stored_above(file, later, NO_HINT, key),
        // the item after this one is the first
        Ordering::Equal => stored_above(file, later, 0, key),
        Ordering::Greater => match stored_above(file, earlier, NO_HINT, key) {
            None => Some(item),
            Some(lower) => Some(lower),
        },
    }
}

/// How many items exist before the one under a key among those at some offsets of a file, by the key's text, if one is
/// there.
pub(crate) fn index_of(file: &[u8], offsets: &[u32], key: &[u8]) -> Option<usize>
    requires exist { spec.AreItemsAt file.now offsets.now }
    requires rises { spec.IsRising (spec.row_at file.now offsets.now) }
    ensures index { (k : AKey) → IsKeyText key.now k → result ≡ spec.index_of k (spec.row_at file.now offsets.now) }
    ensures within { IfSome result (λ i. i < length offsets.now) }
{
    let (earlier, others) = offsets.split_at(offsets.len() / 2);
    let Some((offset, later)) = others.split_first() else {
        return None;
    };
    let item = stored_at(file, *offset);
    match item.order(key) {
        Ordering::Less => match index_of(file, later, key) {
            None => None,
            Some(later) => Some(earlier.len() + 1 + later),
        },
        Ordering::Equal => Some(earlier.len()),
        Ordering::Greater => index_of(file, earlier, key),
    }
}
