//! Items of buckets.

ghost use Rattle.std.specs.Prelude.{◌≡◌, ◌++◌, OnOk};
ghost use Rattle.xdr_core.specs.Position.{Reads, itself};
ghost use Rattle.xdr_core.specs.ReadFault.{cause_of};
ghost use Rattle.xdr_entries.specs.Keys as spec;

use crate::entry::{read_ledger_entry, write_ledger_entry};
use crate::key::{read_ledger_key, write_ledger_key};
use ledger_types::BucketEntry;
use std::alloc::{AllocError, Global};
use xdr_core::{Builder, Cursor, ReadFault, XdrFault, XdrKind};

/// METAENTRY (BucketEntryType in Stellar-ledger.x).
const METAENTRY: i32 = -1;

/// LIVEENTRY (BucketEntryType in Stellar-ledger.x).
const LIVEENTRY: i32 = 0;

/// DEADENTRY (BucketEntryType in Stellar-ledger.x).
const DEADENTRY: i32 = 1;

/// INITENTRY (BucketEntryType in Stellar-ledger.x).
const INITENTRY: i32 = 2;

/// Reads the protocol of a bucket's ledger, and its extension (BucketMetadata in Stellar-ledger.x).
fn read_version(cursor: &mut Cursor<'_>) -> Result<u32, XdrFault>
    ensures { Reads itself result cursor.old cursor.new (spec.meta_arm.body.read cursor.old) }
{
    let mut ahead = cursor.fork();
    let ledger_version = ahead.u32()?;
    ahead.tag(0)?;
    *cursor = ahead;
    Ok(ledger_version)
}

/// Reads an item of a bucket.
#[tactic(auto, unfolding(crate::specs::Keys::bucket_entry))]
pub fn read_bucket_entry(alloc: Global, cursor: &mut Cursor<'_>) -> Result<BucketEntry, ReadFault>
    ensures { Reads cause_of result cursor.old cursor.new (spec.bucket_entry.read cursor.old) }
{
    let mut ahead = cursor.fork();
    let entry = match ahead.i32()? {
        METAENTRY => BucketEntry::Meta {
            ledger_version: read_version(&mut ahead)?,
        },
        LIVEENTRY => BucketEntry::Live(read_ledger_entry(alloc, &mut ahead)?),
        DEADENTRY => BucketEntry::Dead(read_ledger_key(alloc, &mut ahead)?),
        INITENTRY => BucketEntry::Init(read_ledger_entry(alloc, &mut ahead)?),
        _ => return Err(ReadFault::Xdr(cursor.fault(XdrKind::BadEnum))),
    };
    *cursor = ahead;
    Ok(entry)
}

/// Writes an item of a bucket: its encoding is put at the end.
#[tactic(auto, using(crate::proofs::AllLaws::written_values))]
pub fn write_bucket_entry(value: &BucketEntry, builder: &mut Builder) -> Result<(), AllocError>
    requires { spec.bucket_entry.within value.now }
    ensures { OnOk result (builder.new ≡ builder.old ++ spec.bucket_entry.encoding value.now) }
{
    write_arm(value, builder)
}

/// Writes the discriminant of an item, and what follows it.
#[tactic(auto, unfolding(crate::specs::Keys::bucket_entry))]
fn write_arm(value: &BucketEntry, builder: &mut Builder) -> Result<(), AllocError>
    requires { spec.bucket_entry.within value.now }
    ensures { OnOk result (builder.new ≡ spec.bucket_entry.onto builder.old value.now) }
{
    match value {
        BucketEntry::Meta { ledger_version } => {
            builder.i32(METAENTRY)?;
            builder.u32(*ledger_version)?;
            builder.tag(0)
        }
        BucketEntry::Live(entry) => {
            builder.i32(LIVEENTRY)?;
            write_ledger_entry(entry, builder)
        }
        BucketEntry::Dead(key) => {
            builder.i32(DEADENTRY)?;
            write_ledger_key(key, builder)
        }
        BucketEntry::Init(entry) => {
            builder.i32(INITENTRY)?;
            write_ledger_entry(entry, builder)
        }
    }
}
