//! Writing the file of a fresh bucket.

ghost use Rattle.std.specs.Prelude.{◌≡◌, ◌++◌, ◌<◌, ◌^◌, map, All, IfOk, OnOk};
ghost use Rattle.std.specs.List.{flat_map};
ghost use Rattle.ledger_types.specs.declared.bucket.BucketEntry.TheVariants as bucket;
ghost use Rattle.xdr_entries.specs.Keys as spec;
ghost use Rattle.bucket_core.specs.bucket_items.MarkedItem.{record_of, IsEncodable};
ghost use Rattle.fresh_bucket.specs.ItemRefs.{item_at, items_at};

use crate::item_ref::ItemRef;
use entry_table::Kept;
use ledger_types::BucketEntry;
use std::alloc::{AllocError, Global};
use xdr_core::Builder;
use xdr_entries::{write_bucket_entry, write_ledger_entry, write_ledger_key};

/// The greatest length of an item.
const MAX_ITEM_LEN: u32 = 2_147_483_647;

/// LIVEENTRY (BucketEntryType in Stellar-ledger.x).
const LIVEENTRY: i32 = 0;

/// DEADENTRY (BucketEntryType in Stellar-ledger.x).
const DEADENTRY: i32 = 1;

/// INITENTRY (BucketEntryType in Stellar-ledger.x).
const INITENTRY: i32 = 2;

/// Writes an item: its encoding is at the end.
#[tactic(auto, unfolding(xdr_entries::specs::Keys::bucket_entry, xdr_core::specs::Leaves::i32))]
fn encode_item(item: &ItemRef<'_>, text: &mut Builder) -> Result<(), AllocError>
    requires { spec.bucket_entry.within (item_at item.now) }
    ensures { OnOk result (text.new ≡ text.old ++ spec.bucket_entry.encoding (item_at item.now)) }
{
    match item {
        ItemRef::Init(entry) => {
            text.i32(INITENTRY)?;
            write_ledger_entry(entry, text)
        }
        ItemRef::Live(entry) => {
            text.i32(LIVEENTRY)?;
            write_ledger_entry(entry, text)
        }
        ItemRef::Dead(key) => {
            text.i32(DEADENTRY)?;
            write_ledger_key(key, text)
        }
    }
}

/// Puts an item after its record mark at the end of a file.
#[tactic(auto, unfolding(xdr_core::specs::Leaves::mark))]
fn write_item(alloc: Global, item: &ItemRef<'_>, file: &mut Builder) -> Result<(), AllocError>
    requires { IsEncodable (item_at item.now) }
    ensures { OnOk result (file.new ≡ file.old ++ record_of (item_at item.now)) }
{
    let mut text = Builder::new(alloc);
    encode_item(item, &mut text)?;
    file.mark(text.as_slice(), MAX_ITEM_LEN)
}

/// Puts META after its record mark at the end of a file.
#[tactic(auto, unfolding(xdr_core::specs::Leaves::mark))]
fn write_meta(alloc: Global, version: u32, file: &mut Builder) -> Result<(), AllocError>
    requires { IsEncodable (bucket.Meta version) }
    ensures { OnOk result (file.new ≡ file.old ++ record_of (bucket.Meta version)) }
{
    let meta = BucketEntry::Meta {
        ledger_version: version,
    };
    let mut text = Builder::new(alloc);
    write_bucket_entry(&meta, &mut text)?;
    file.mark(text.as_slice(), MAX_ITEM_LEN)
}

/// Puts the items of a row at the end of a file.
fn write_items(
    alloc: Global,
    row: &[Kept<ItemRef<'_>>],
    file: &mut Builder,
) -> Result<(), AllocError>
    requires { All (λ x. IsEncodable (item_at x.1)) row.now }
    ensures { OnOk result (file.new ≡ file.old ++ flat_map record_of (map (λ x. x.1) (items_at row.now))) }
{
    for kept in row {
        write_item(alloc, kept.value(), file)?;
    }
    Ok(())
}

/// The file of META and of the items of a row.
pub(crate) fn file_of(
    alloc: Global,
    version: u32,
    row: &[Kept<ItemRef<'_>>],
) -> Result<Vec<u8>, AllocError>
    requires { All (λ x. IsEncodable (item_at x.1)) row.now }
    ensures { IfOk result (λ file.
        file.items ≡ record_of (bucket.Meta version) ++ flat_map record_of (map (λ x. x.1) (items_at row.now))) }
{
    let mut file = Builder::new(alloc);
    write_meta(alloc, version, &mut file)?;
    write_items(alloc, row, &mut file)?;
    Ok(file.finish())
}
