//! The head of an image file.

ghost use Rattle.std.specs.Prelude.{◌≡◌, ◌<◌, ◌≤◌, ◌+◌, ◌^◌, IfOk, IfSome, length};
ghost use Rattle.byteorder.specs.Endian.{big_number};
ghost use Rattle.outside.specs.Streams.{HasCause};
ghost use Rattle.outside.specs.Disk.{Stays};
ghost use Rattle.gate_journal.specs.Reading.{HasReadCause};
ghost use Rattle.image_store.specs.ImageFiles as spec;
ghost use Rattle.image_store.specs.Reading as reading;

use crate::gate::{Gate, HEAD_LEN, gate_of};
use crate::hashing::hash_from;
use byteorder::{BigEndian, ByteOrder};
use gate_journal::{StoreFault, read_exact};
use ledger_types::Hash;
use outside::{Failed, Volume};

/// Where the epoch is.
const EPOCH_AT: u64 = 1;

/// Where the image's length is.
const LENGTH_AT: u64 = 41;

/// How many bytes a hash has.
const HASH_LEN: u64 = 32;

/// The bit of the epoch's word that tells format 2.
const TOP_BIT: u64 = 1 << 63;

/// The epoch that a store of format 1 doesn't have.
const LAST_EPOCH: u64 = TOP_BIT - 1;

/// What an image file says ahead of its image.
#[derive(Clone, Copy)]
pub(crate) struct Head {
    /// 1 or 2.
    pub(crate) format: u8,
    pub(crate) epoch: u64,
    pub(crate) network: Hash,
    /// How many bytes the image has.
    pub(crate) len: u64,
}

/// Where an image begins in a file of this format: 81 in format 2, else 49.
pub fn image_offset(format: u8) -> u64
    ensures { result ≡ spec.image_offset format }
{
    if format == 2 {
        HEAD_LEN + HASH_LEN
    } else {
        HEAD_LEN
    }
}

/// The word of an epoch in format 2.
#[tactic(auto, unfolding(crate::specs::ImageFiles::top_bit))]
pub(crate) fn word_of(epoch: u64) -> u64
    requires { epoch < 2 ^ 63 }
    ensures { result ≡ spec.top_bit + epoch }
{
    TOP_BIT + epoch
}

/// The number that eight bytes encode, the highest first.
fn u64_in(bytes: &[u8]) -> u64
    requires { length bytes.now ≡ 8 }
    ensures { result ≡ big_number 8 bytes.now }
{
    BigEndian::read_u64(bytes)
}

/// The network id in the head of an image file.
fn network_of(head: &[u8; 49]) -> Hash
    ensures { result ≡ spec.network_in head.now }
{
    let mut network = [0; 32];
    network.copy_from_slice(&head[9..41]);
    Hash(network)
}

/// The format and the epoch in the head of an image file.
fn numbered(head: &[u8; 49]) -> (u8, u64)
    ensures format { result.0 ≡ spec.format_in head.now }
    ensures epoch { result.1 ≡ spec.epoch_in head.now }
{
    let word = u64_in(&head[1..9]);
    if word < TOP_BIT {
        (1, word)
    } else {
        (2, word - TOP_BIT)
    }
}

/// Whether an image file may have this epoch, which is below 2^63, in this format.
fn is_of_file(file: u8, format: u8, epoch: u64) -> bool
    ensures { reading.ReportsEpoch file format epoch result }
{
    if epoch % 2 != u64::from(file) {
        return false;
    }
    if format != 1 {
        return true;
    }
    epoch < LAST_EPOCH
}

/// What an open image file of so many bytes says, whose head is this. The hash isn't judged.
fn judged(file: u8, head: &[u8; 49], size: u64) -> Result<Head, StoreFault>
    ensures fits { IfOk result (reading.DoesHeadFit file) }
    ensures reported { reading.ReportsForm file head.now size result }
{
    let (format, epoch) = numbered(head);
    if !is_of_file(file, format, epoch) {
        return Err(StoreFault::BadStore {
            file,
            place: EPOCH_AT,
        });
    }
    let len = u64_in(&head[41..49]);
    let offset = image_offset(format);
    if size < offset || size - offset != len {
        return Err(StoreFault::BadStore {
            file,
            place: LENGTH_AT,
        });
    }
    Ok(Head {
        format,
        epoch,
        network: network_of(head),
        len,
    })
}

/// Whether an open image file with this head has the hash of its image, where it has one.
fn is_hashed<V: Volume>(vol: &mut V, file: u8, head: &Head) -> Result<bool, Failed>
    requires file { file < 2 }
    requires fits { reading.DoesHeadFit file head.now }
    requires size { V.reports → reading.IsHeadSized ((V.disk vol.old).reads file) head.now }
    ensures hashed { V.reports → IfOk result (reading.ReportsHashed ((V.disk vol.old).reads file)) }
    ensures stays { Stays (V.disk vol.old) (V.disk vol.new) }
    ensures cause { HasCause (V.faults vol.old) (V.faults vol.new) result }
{
    if head.format != 2 {
        return Ok(true);
    }
    let mut digest = [0; 32];
    read_exact(vol, file, HEAD_LEN, &mut digest)?;
    let found = hash_from(vol, file, image_offset(head.format), head.len)?;
    Ok(digest == found)
}

/// The head of an open image file of so many bytes.
fn open_head<V: Volume>(vol: &mut V, file: u8, size: u64) -> Result<Head, StoreFault>
    requires file { file < 2 }
    requires is_open { V.reports → spec.IsOpen ((V.disk vol.old).reads file) }
    requires size { V.reports → length ((V.disk vol.old).reads file) ≡ size }
    requires fits { spec.head_len ≤ size }
    ensures reported { V.reports → reading.ReportsOpenHead file ((V.disk vol.old).reads file) result }
    ensures fits { IfOk result (reading.DoesHeadFit file) }
    ensures stays { Stays (V.disk vol.old) (V.disk vol.new) }
    ensures cause { HasReadCause (V.faults vol.old) (V.faults vol.new) result }
{
    let mut bytes = [0; 49];
    let Ok(()) = read_exact(vol, file, 0, &mut bytes) else {
        return Err(StoreFault::DiskFault);
    };
    let head = match judged(file, &bytes, size) {
        Err(wrong) => return Err(wrong),
        Ok(head) => head,
    };
    match is_hashed(vol, file, &head) {
        Ok(true) => Ok(head),
        Ok(false) => Err(StoreFault::BadStore {
            file,
            place: HEAD_LEN,
        }),
        Err(_) => Err(StoreFault::DiskFault),
    }
}

/// The head of an image file, if an image is open in it. `BadStore` says where its form is broken: its epoch isn't one
/// of the file's (at 1), or else its length isn't the file's (at 41), or else its hash isn't the image's (at 49).
pub(crate) fn head_of<V: Volume>(vol: &mut V, file: u8) -> Result<Option<Head>, StoreFault>
    requires { file < 2 }
    ensures reported { V.reports → reading.ReportsHead file ((V.disk vol.old).reads file) result }
    ensures fits { IfOk result (λ found. IfSome found (λ head. reading.DoesHeadFit file head)) }
    ensures stays { Stays (V.disk vol.old) (V.disk vol.new) }
    ensures cause { HasReadCause (V.faults vol.old) (V.faults vol.new) result }
{
    match gate_of(vol, file) {
        Err(_) => Err(StoreFault::DiskFault),
        Ok(Gate::Open { size }) => {
            let head = open_head(vol, file, size)?;
            Ok(Some(head))
        }
        Ok(_) => Ok(None),
    }
}
