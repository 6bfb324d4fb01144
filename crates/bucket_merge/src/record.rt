//! Writing the records of items.

ghost use Rattle.std.specs.Prelude.{◌≡◌, ◌+◌, ◌≤◌, ◌++◌, length, OnOk};
ghost use Rattle.byteorder.specs.Endian.{big_bytes};
ghost use Rattle.xdr_core.specs.Leaves.{mark};
ghost use Rattle.bucket_core.specs.ledger_types.declared.bucket.BucketEntry.{BucketEntry};
ghost use Rattle.bucket_core.specs.ledger_types.declared.bucket.BucketEntry.TheVariants as entry;
ghost use Rattle.bucket_core.specs.ledger_types.declared.entry.LedgerEntry.{LedgerEntry};
ghost use Rattle.bucket_items.specs.Item.{Shows};
ghost use Rattle.bucket_items.specs.MarkedItem.{max_item_len, record_of, IsEncodable};

use bucket_core::BucketItem;
use byteorder::{BigEndian, ByteOrder};
use std::alloc::AllocError;

/// The bit that every record mark has (RFC 5531, 11).
const TOP_BIT: u32 = 1 << 31;

/// The discriminant of LIVEENTRY (BucketEntryType in Stellar-ledger.x).
const LIVEENTRY: [u8; 4] = [0, 0, 0, 0];

/// The discriminant of INITENTRY (BucketEntryType in Stellar-ledger.x).
const INITENTRY: [u8; 4] = [0, 0, 0, 2];

/// Puts a number of 32 bits at the end of a file, the highest byte first.
pub(crate) fn put_number(number: u32, file: &mut Vec<u8>) -> Result<(), AllocError>
    ensures { OnOk result (file.new.items ≡ file.old.items ++ big_bytes 4 number) }
{
    let mut bytes = [0u8; 4];
    BigEndian::write_u32(&mut bytes, number);
    file.extend_from_slice(&bytes)
}

/// Puts a record of two pieces at the end of a file, after its mark.
#[tactic(auto, unfolding(xdr_core::specs::Leaves::mark))]
fn put_record(prefix: &[u8], back: &[u8], file: &mut Vec<u8>) -> Result<(), AllocError>
    requires { length prefix.now + length back.now ≤ max_item_len }
    ensures { OnOk result (file.new.items ≡ file.old.items ++ (mark max_item_len).encoding (prefix.now ++ back.now)) }
{
    put_number(TOP_BIT + prefix.len() as u32 + back.len() as u32, file)?;
    file.extend_from_slice(prefix)?;
    file.extend_from_slice(back)
}

/// Puts the record of an item at the end of a file.
pub(crate) fn put_item(item: &BucketItem<'_>, file: &mut Vec<u8>) -> Result<(), AllocError>
    requires { (e : BucketEntry) × Shows item.now item.now.bytes.now e × IsEncodable e }
    ensures { (e : BucketEntry) → Shows item.now item.now.bytes.now e
        → OnOk result (file.new.items ≡ file.old.items ++ record_of e) }
{
    put_record(item.bytes, &[], file)
}

/// Puts the record of the entry of an INIT at the end of a file, as a LIVE.
pub(crate) fn put_live(item: &BucketItem<'_>, file: &mut Vec<u8>) -> Result<(), AllocError>
    requires { (e : LedgerEntry) × Shows item.now item.now.bytes.now (entry.Init e) × IsEncodable (entry.Init e) }
    ensures { (e : LedgerEntry) → Shows item.now item.now.bytes.now (entry.Init e)
        → OnOk result (file.new.items ≡ file.old.items ++ record_of (entry.Live e)) }
{
    put_record(&LIVEENTRY, item.bytes.split_at(4).1, file)
}

/// Puts the record of the entry of a LIVE at the end of a file, as an INIT.
pub(crate) fn put_init(item: &BucketItem<'_>, file: &mut Vec<u8>) -> Result<(), AllocError>
    requires { (e : LedgerEntry) × Shows item.now item.now.bytes.now (entry.Live e) × IsEncodable (entry.Live e) }
    ensures { (e : LedgerEntry) → Shows item.now item.now.bytes.now (entry.Live e)
        → OnOk result (file.new.items ≡ file.old.items ++ record_of (entry.Init e)) }
{
    put_record(&INITENTRY, item.bytes.split_at(4).1, file)
}
