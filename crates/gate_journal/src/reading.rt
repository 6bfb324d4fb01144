//! Reading what a volume keeps.

ghost use Rattle.std.specs.Prelude.{◌≡◌, ◌≤◌, ◌<◌, ◌+◌, ◌^◌, OnOk, IfOk, IfErr, IfSome, All, length, take, drop};
ghost use Rattle.byteorder.specs.Endian.{big_number, big_bytes};
ghost use Rattle.outside.specs.Streams.{HasCause};
ghost use Rattle.outside.specs.Disk.{Stays};
ghost use Rattle.gate_journal.specs.Records.{max_record, blocks};
ghost use Rattle.gate_journal.specs.Reading.{ReportsNothing, ReportsGate, ReportsLength, ReportsRecord, ReportsRecords};
ghost use Rattle.gate_journal.specs.Reading.{IsOpen};
ghost use Rattle.gate_journal.specs.Reading.{HasReadCause};

use crate::fault::StoreFault;
use byteorder::{BigEndian, ByteOrder};
use item_list::ItemList;
use outside::{Failed, Volume};
use std::alloc::Global;

/// A gate that a record follows.
pub(crate) const OPEN: u8 = 1;

/// The most bytes of a record.
const MAX_RECORD: u32 = 16_777_216;

/// Fills `buf` with the bytes of a file from `at` on.
pub fn read_exact<V: Volume>(vol: &mut V, file: u8, at: u64, buf: &mut [u8]) -> Result<(), Failed>
    requires file { file < 4 }
    requires fits { at + length buf.old < 2 ^ 64 }
    requires within { V.reports → at + length buf.old ≤ length ((V.disk vol.old).reads file) }
    ensures bytes { V.reports → OnOk result (buf.new ≡ take (length buf.new) (drop at ((V.disk vol.old).reads file))) }
    ensures stays { Stays (V.disk vol.old) (V.disk vol.new) }
    ensures cause { HasCause (V.faults vol.old) (V.faults vol.new) result }
{
    let mut done = 0;
    while done < buf.len() {
        let (_, rest) = buf.split_at_mut(done);
        match vol.read_at(file, at + done as u64, rest) {
            Ok(count) => done += count,
            Err(failed) => return Err(failed),
        }
    }
    Ok(())
}

/// So many bytes of a file from `at` on. It fails with `DiskFault` or `NoMemory`.
pub fn read_bytes<V: Volume>(
    alloc: Global,
    vol: &mut V,
    file: u8,
    at: u64,
    count: usize,
) -> Result<Vec<u8>, StoreFault>
    requires file { file < 4 }
    requires fits { at + count < 2 ^ 64 }
    requires within { V.reports → at + count ≤ length ((V.disk vol.old).reads file) }
    ensures count { IfOk result (λ bytes. length bytes.items ≡ count) }
    ensures bytes { V.reports
        → IfOk result (λ bytes. bytes.items ≡ take count (drop at ((V.disk vol.old).reads file))) }
    ensures stays { Stays (V.disk vol.old) (V.disk vol.new) }
    ensures cause { HasReadCause (V.faults vol.old) (V.faults vol.new) result }
    ensures unbroken { IfErr result (λ wrong. ReportsNothing wrong) }
{
    let Ok(mut bytes) = vec![in alloc; 0; count] else {
        return Err(StoreFault::NoMemory);
    };
    match read_exact(vol, file, at, bytes.as_mut_slice()) {
        Ok(()) => Ok(bytes),
        Err(_) => Err(StoreFault::DiskFault),
    }
}

// Whether the gate at an offset is open.
fn is_open<V: Volume>(vol: &mut V, file: u8, at: u64, size: u64) -> Result<bool, StoreFault>
    requires file { file < 4 }
    requires size { V.reports → size ≡ length ((V.disk vol.old).reads file) }
    ensures reported { V.reports → ReportsGate file at (drop at ((V.disk vol.old).reads file)) result }
    ensures within { IfOk result (λ _. at < size) }
    ensures stays { Stays (V.disk vol.old) (V.disk vol.new) }
    ensures cause { HasReadCause (V.faults vol.old) (V.faults vol.new) result }
{
    if at >= size {
        return Err(StoreFault::BadStore { file, place: at });
    }
    let mut gate = [0; 1];
    match read_exact(vol, file, at, &mut gate) {
        Ok(()) => Ok(gate[0] == OPEN),
        Err(_) => Err(StoreFault::DiskFault),
    }
}

// The number that four bytes encode, the highest first.
fn number(head: &[u8; 4]) -> u32
    ensures read { result ≡ big_number 4 head.now }
    ensures encoded { big_bytes 4 result ≡ head.now }
{
    BigEndian::read_u32(head)
}

// The length of the record after the open gate at an offset.
fn record_length<V: Volume>(vol: &mut V, file: u8, at: u64, size: u64) -> Result<u32, StoreFault>
    requires file { file < 4 }
    requires size { V.reports → size ≡ length ((V.disk vol.old).reads file) }
    requires within { at < size }
    requires opened { V.reports → IsOpen (drop at ((V.disk vol.old).reads file)) }
    ensures reported { V.reports → ReportsLength file at (drop at ((V.disk vol.old).reads file)) result }
    ensures within { IfOk result (λ count. (at + 5 + count ≤ size) × (count ≤ 16777216)) }
    ensures stays { Stays (V.disk vol.old) (V.disk vol.new) }
    ensures cause { HasReadCause (V.faults vol.old) (V.faults vol.new) result }
{
    let broken = StoreFault::BadStore { file, place: at };
    let left = size - at;
    if left < 5 {
        return Err(broken);
    }
    let mut head = [0; 4];
    match read_exact(vol, file, at + 1, &mut head) {
        Err(_) => return Err(StoreFault::DiskFault),
        Ok(()) => {}
    }
    let count = number(&head);
    if count > MAX_RECORD || u64::from(count) > left - 5 {
        return Err(broken);
    }
    Ok(count)
}

// The record after the gate at an offset, or none where the gate isn't open.
fn next_record<V: Volume>(
    alloc: Global,
    vol: &mut V,
    file: u8,
    at: u64,
    size: u64,
) -> Result<Option<ItemList<u8>>, StoreFault>
    requires file { file < 4 }
    requires size { V.reports → size ≡ length ((V.disk vol.old).reads file) }
    ensures reported { V.reports → ReportsRecord file at (drop at ((V.disk vol.old).reads file)) result }
    ensures within { IfOk result (λ found. (at < size) × IfSome found (λ bytes. at + 5 + length bytes ≤ size)) }
    ensures short { IfOk result (λ found. IfSome found (λ bytes. length bytes ≤ max_record)) }
    ensures stays { Stays (V.disk vol.old) (V.disk vol.new) }
    ensures cause { HasReadCause (V.faults vol.old) (V.faults vol.new) result }
{
    match is_open(vol, file, at, size) {
        Err(fault) => return Err(fault),
        Ok(false) => return Ok(None),
        Ok(true) => {}
    }
    let count = match record_length(vol, file, at, size) {
        Err(fault) => return Err(fault),
        Ok(count) => count,
    };
    match read_bytes(alloc, vol, file, at + 5, count as usize) {
        Err(fault) => Err(fault),
        Ok(bytes) => Ok(Some(ItemList::from_vec(bytes))),
    }
}

// The records of a file, and the offset of the gate after them.
pub(crate) fn read_records<V: Volume>(
    alloc: Global,
    vol: &mut V,
    file: u8,
    size: u64,
) -> Result<(ItemList<ItemList<u8>>, u64), StoreFault>
    requires file { file < 4 }
    requires size { V.reports → size ≡ length ((V.disk vol.old).reads file) }
    ensures reported { V.reports → ReportsRecords file ((V.disk vol.old).reads file) result }
    ensures within { IfOk result (λ found. found.1 < size) }
    ensures short { IfOk result (λ found. All (λ bytes. length bytes ≤ max_record) found.0) }
    ensures offset { IfOk result (λ found. found.1 ≡ length (blocks found.0)) }
    ensures stays { Stays (V.disk vol.old) (V.disk vol.new) }
    ensures cause { HasReadCause (V.faults vol.old) (V.faults vol.new) result }
{
    let mut records = ItemList::new(alloc);
    let mut end = 0;
    loop {
        let record = match next_record(alloc, vol, file, end, size) {
            Err(fault) => return Err(fault),
            Ok(None) => return Ok((records, end)),
            Ok(Some(record)) => record,
        };
        end += 5 + record.len() as u64;
        match records.push(record) {
            Err(_) => return Err(StoreFault::NoMemory),
            Ok(()) => {}
        }
    }
}
