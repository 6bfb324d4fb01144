//! A journal: framed records in a file, each behind a gate byte that is opened last.

ghost use Rattle.std.specs.Prelude.{
  ◌≡◌,
  ◌≢◌,
  ◌≤◌,
  ◌<◌,
  ◌+◌,
  ◌-◌,
  ◌^◌,
  ◌⊎◌,
  All,
  [],
  ◌∷◌,
  ◌++◌,
  ℕ,
  List,
  true,
  false,
  Err,
  IsOk,
  OnOk,
  OnErr,
  IfOk,
  IfErr,
  length,
};
ghost use Rattle.outside.specs.Streams.{HasCause, Rose};
ghost use Rattle.outside.specs.Disk.{Image, Runs, Same, Stays, InFile, IsSafe};
ghost use Rattle.gate_journal.specs.Records.{max_record, blocks, Appended, HasRecords};
ghost use Rattle.gate_journal.specs.Calls.{HoldsRecords, IsSettled, HasEither, Anything, IsClearFault, IsAppendFault};
ghost use Rattle.gate_journal.specs.Calls.{IsMountFault, Mounts};
ghost use Rattle.gate_journal.specs.declared.fault.StoreFault.TheVariants as fault;

use crate::append_buf::AppendBuf;
use crate::fault::StoreFault;
use crate::reading::{OPEN, read_records};
use item_list::ItemList;
use outside::{Failed, Volume, write_and_sync};
use std::alloc::Global;
use std::marker::Model;

/// A gate that no record follows.
const SHUT: u8 = 0;

/// A list of records in a file of a volume. A record is kept, entirely or not at all, whenever the volume loses
/// power, and from the `Ok` of its `append` on it is kept.
#[derive(Drop)]
pub struct Journal {
    file: u8,
    // the offset of the gate after the records
    end: u64,
    failed: bool,
}

impl Model for Journal {
    ghost use Rattle.std.specs.Prelude.{◌<◌, ◌-◌, ◌^◌};
    ghost use Rattle.gate_journal.specs.Calls.{JournalState};

    ghost Value = { JournalState };

    ghost view = { λ j. record { file = j.file; end = j.end; failed = j.failed } };

    ghost invariant = { λ j. (j.file < 4) × (j.end < 2 ^ 64 - 1) };
}

// Writes a record after the gate at `end`, syncs, opens the gate and syncs.
fn append_at<V: Volume>(vol: &mut V, file: u8, end: u64, buf: &AppendBuf) -> Result<(), Failed>
    requires file { file < 4 }
    requires end { end < 2 ^ 64 - 1 }
    ensures ok { V.reports → (records : List (List ℕ)) → HoldsRecords (V.disk vol.old) file end records
        → OnOk result (HasRecords ((V.disk vol.new).reads file) (records ++ buf.now ∷ [])) }
    ensures written { V.reports → (records : List (List ℕ)) → HoldsRecords (V.disk vol.old) file end records
        → OnOk result (InFile file (Appended end buf.now) (V.disk vol.old).reads (V.disk vol.new).reads) }
    ensures runs { V.reports → (records : List (List ℕ)) → HoldsRecords (V.disk vol.old) file end records
        → Runs (InFile file (λ _ c. HasEither records buf.now c)) (V.disk vol.old) (V.disk vol.new) }
    ensures safe { OnOk result (IsSafe (V.disk vol.new)) }
    ensures fits { OnOk result (end + 6 + length buf.now < 2 ^ 64) }
    ensures cause { HasCause (V.faults vol.old) (V.faults vol.new) result }
{
    match write_and_sync(vol, file, end + 1, buf.piece()) {
        Err(failed) => return Err(failed),
        Ok(()) => {}
    }
    write_and_sync(vol, file, end, &[OPEN])
}

impl Journal {
    /// Makes a file a journal without records: it is cut to 0 bytes, gets one closed gate, and is synced. The other
    /// files are synced with it. It takes no memory, and fails with `DiskFault` alone.
    pub fn clear<V: Volume>(vol: &mut V, file: u8) -> Result<Journal, StoreFault>
        requires { file < 4 }
        ensures journal { IfOk result (λ j. j ≡ record { file = file; end = 0; failed = false }) }
        ensures settled { V.reports → IfOk result (λ j. IsSettled j (V.disk vol.new) []) }
        ensures written { V.reports → OnOk result (InFile file (λ _ new. new ≡ 0 ∷ [])
            (V.disk vol.old).reads (V.disk vol.new).reads) }
        ensures safe { OnOk result (IsSafe (V.disk vol.new)) }
        ensures runs { Runs (InFile file Anything) (V.disk vol.old) (V.disk vol.new) }
        ensures later { V.faults vol.old ≤ V.faults vol.new }
        ensures cause { IfErr result (λ wrong. IsClearFault (V.faults vol.old) (V.faults vol.new) wrong) }
    {
        match vol.cut(file, 0) {
            Err(_) => return Err(StoreFault::DiskFault),
            Ok(()) => {}
        }
        match write_and_sync(vol, file, 0, &[SHUT]) {
            Err(_) => Err(StoreFault::DiskFault),
            Ok(()) => Ok(Journal {
                file,
                end: 0,
                failed: false,
            }),
        }
    }

    /// Opens the journal of a file, and gives its records. It begins with a sync and writes nothing, so a last gate
    /// that is neither 0 nor 1 stays until the next `append`. `BadStore` says where a gate is missing, or the
    /// gate of a record that is cut short or longer than 16777216 bytes.
    pub fn mount<V: Volume>(
        alloc: Global,
        vol: &mut V,
        file: u8,
    ) -> Result<(Journal, ItemList<ItemList<u8>>), StoreFault>
        requires { file < 4 }
        ensures mounts { V.reports → Mounts file (V.disk vol.old) (V.disk vol.new) result }
        ensures journal { IfOk result (λ m. (m.0.file ≡ file) × (m.0.failed ≡ false)) }
        ensures short { IfOk result (λ m. All (λ bytes. length bytes ≤ max_record) m.1) }
        ensures offset { IfOk result (λ m. (m.0.end ≡ length (blocks m.1)) × (length (blocks m.1) < 2 ^ 64)) }
        ensures safe { OnOk result (IsSafe (V.disk vol.new)) }
        ensures runs { Runs Same (V.disk vol.old) (V.disk vol.new) }
        ensures later { V.faults vol.old ≤ V.faults vol.new }
        ensures cause { IfErr result (λ wrong. IsMountFault (V.faults vol.old) (V.faults vol.new) wrong) }
    {
        match vol.sync() {
            Err(_) => return Err(StoreFault::DiskFault),
            Ok(()) => {}
        }
        let size = match vol.len(file) {
            Err(_) => return Err(StoreFault::DiskFault),
            Ok(size) => size,
        };
        match read_records(alloc, vol, file, size) {
            Err(fault) => Err(fault),
            Ok((records, end)) => Ok((
                Journal {
                    file,
                    end,
                    failed: false,
                },
                records,
            )),
        }
    }

    /// Puts a record after the others. While it runs each crash leaves the records before, or those and this one; from
    /// `Ok` on, these. It takes no memory. After a `DiskFault` it answers `Failed`, until the journal is mounted anew.
    pub fn append<V: Volume>(&mut self, vol: &mut V, buf: AppendBuf) -> Result<(), StoreFault>
        requires { V.reports → (self.old.failed ≡ true)
            ⊎ ((records : List (List ℕ)) × IsSettled self.old (V.disk vol.old) records) }
        ensures ok { V.reports → (records : List (List ℕ)) → IsSettled self.old (V.disk vol.old) records
            → OnOk result (IsSettled self.new (V.disk vol.new) (records ++ buf ∷ [])) }
        ensures each_moment { V.reports → (records : List (List ℕ)) → IsSettled self.old (V.disk vol.old) records
            → (c : Image) → (V.disk vol.new).left_since (V.disk vol.old).moment c
            → HasEither records buf (c self.old.file) }
        ensures runs { V.reports → (records : List (List ℕ)) → IsSettled self.old (V.disk vol.old) records
            → Runs (InFile self.old.file (λ _ c. HasEither records buf c)) (V.disk vol.old) (V.disk vol.new) }
        ensures written { V.reports → (records : List (List ℕ)) → IsSettled self.old (V.disk vol.old) records
            → OnOk result (InFile self.old.file (Appended self.old.end buf) (V.disk vol.old).reads
            (V.disk vol.new).reads) }
        ensures safe { OnOk result (IsSafe (V.disk vol.new)) }
        ensures file { self.new.file ≡ self.old.file }
        ensures working { OnOk result (self.new.failed ≡ false) }
        ensures failing { OnErr result (self.new.failed ≡ true) }
        ensures failed { self.old.failed ≡ true → (result ≡ Err fault.Failed) × (self.new ≡ self.old)
            × Stays (V.disk vol.old) (V.disk vol.new) }
        ensures sure { self.old.failed ≡ false → (Rose (V.faults vol.old) (V.faults vol.new) → ⊥) → IsOk result }
        ensures later { V.faults vol.old ≤ V.faults vol.new }
        ensures cause { IfErr result (λ wrong.
            IsAppendFault self.old.failed (V.faults vol.old) (V.faults vol.new) wrong) }
    {
        if self.failed {
            return Err(StoreFault::Failed);
        }
        match append_at(vol, self.file, self.end, &buf) {
            Err(_) => {
                self.failed = true;
                Err(StoreFault::DiskFault)
            }
            Ok(()) => {
                self.end += 5 + buf.len() as u64;
                Ok(())
            }
        }
    }
}
