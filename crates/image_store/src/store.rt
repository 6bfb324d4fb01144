//! The calls of a store: images and journals of two epochs on a volume.

ghost use Rattle.std.specs.Prelude.{
  ◌≡◌,
  ◌≢◌,
  ◌≤◌,
  ◌<◌,
  ◌+◌,
  ◌-◌,
  ◌%◌,
  ◌^◌,
  ◌⊎◌,
  All,
  ℕ,
  List,
  true,
  false,
  Err,
  IsOk,
  OnOk,
  OnErr,
  IfOk,
  IfErr,
  length,
};
ghost use Rattle.outside.specs.Streams.{HasCause, Rose};
ghost use Rattle.outside.specs.Disk.{Runs, Same, Stays, IsSafe};
ghost use Rattle.xdr_header.specs.Image.{start_image};
ghost use Rattle.gate_journal.specs.Records.{max_record, blocks};
ghost use Rattle.gate_journal.specs.Calls.{IsAppendFault};
ghost use Rattle.gate_journal.specs.declared.fault.StoreFault.TheVariants as fault;
ghost use Rattle.image_store.specs.Opening.{Kept, grown, rolled};
ghost use Rattle.image_store.specs.Calls as spec;
ghost use Rattle.image_store.specs.Reading as reading;

use crate::gate::{Gate, gate_of};
use crate::mounted::Mounted;
use crate::mounting::{chosen, image_of};
use crate::piece::after_gate;
use crate::turn::turn;
use gate_journal::{AppendBuf, Journal, StoreFault};
use ledger_types::Hash;
use outside::{Failed, Volume};
use std::alloc::Global;
use std::marker::Model;
use xdr_header::StartImage;

/// A ledger's store on a volume. It represents the volume that it was made on or mounted from, and needs that volume
/// as its last call left it, unless a call on the volume has failed: from then on it answers `Failed`, until the volume
/// is mounted anew.
#[derive(Drop)]
pub struct Store {
    epoch: u64,
    journal: Journal,
    network: Hash,
    failed: bool,
}

impl Model for Store {
    ghost use Rattle.std.specs.Prelude.{◌≡◌, ◌+◌, ◌%◌, false};
    ghost use Rattle.image_store.specs.State.{StoreState};

    ghost Value = { StoreState };

    ghost view = { λ s. record { epoch = s.epoch; end = s.journal.end; network = s.network; failed = s.failed } };

    ghost invariant = { λ s. (s.journal.file ≡ 2 + s.epoch % 2) × (s.failed ≡ false → s.journal.failed ≡ false) };
}

/// Whether an image is open in one of the files.
fn is_any_open<V: Volume>(vol: &mut V) -> Result<bool, Failed>
    ensures reported { V.reports → IfOk result (λ some. reading.ReportsOpen (V.disk vol.old).reads some) }
    ensures stays { Stays (V.disk vol.old) (V.disk vol.new) }
    ensures cause { HasCause (V.faults vol.old) (V.faults vol.new) result }
{
    if let Gate::Open { .. } = gate_of(vol, 0)? {
        return Ok(true);
    }
    match gate_of(vol, 1)? {
        Gate::Open { .. } => Ok(true),
        _ => Ok(false),
    }
}

impl Store {
    /// Makes a store of an image on a volume that has none: in epoch 0 and format 2, without records. It begins with a
    /// sync, and takes its memory before that. While it runs each crash leaves what was there, or no open image, or the
    /// store; from `Ok` on, the store. `AlreadyThere` says that an image is open.
    pub fn create<V: Volume>(
        alloc: Global,
        vol: &mut V,
        network: Hash,
        image: &StartImage,
    ) -> Result<Store, StoreFault>
        requires within { start_image.within image.now }
        ensures creates { V.reports → spec.Creates network image.now (V.disk vol.old) (V.disk vol.new) result }
        ensures runs { V.reports → Runs (spec.IsCreated network image.now) (V.disk vol.old) (V.disk vol.new) }
        ensures no_memory { result ≡ Err fault.NoMemory → vol.new ≡ vol.old }
        ensures safe { OnOk result (IsSafe (V.disk vol.new)) }
        ensures working { IfOk result (λ store. store.failed ≡ false) }
        ensures later { V.faults vol.old ≤ V.faults vol.new }
        ensures cause { IfErr result (λ wrong. spec.IsCreateFault (V.faults vol.old) (V.faults vol.new) wrong) }
    {
        let Ok(piece) = after_gate(alloc, 0, &network, image) else {
            return Err(StoreFault::NoMemory);
        };
        let Ok(()) = vol.sync() else {
            return Err(StoreFault::DiskFault);
        };
        match is_any_open(vol) {
            Err(_) => return Err(StoreFault::DiskFault),
            Ok(true) => return Err(StoreFault::AlreadyThere),
            Ok(false) => {}
        }
        match turn(vol, 0, piece.as_slice()) {
            Err(_) => Err(StoreFault::DiskFault),
            Ok(journal) => Ok(Store {
                epoch: 0,
                journal,
                network,
                failed: false,
            }),
        }
    }

    /// Opens what a volume keeps: the open image with the greater epoch, and the records after it. It begins with a
    /// sync and writes nothing. `Missing` says that no image is open; `BadStore`, at which offset of which file what is
    /// open is no store: its epoch isn't one of the file's (1), its length isn't the file's (41), its hash isn't the
    /// image's (49, in format 2), its image is none (49 in format 1, 81 in format 2), or in its journal a gate is
    /// missing, or a record is cut short or too long. The hash of each open file is judged, also of the older one.
    pub fn mount<V: Volume>(alloc: Global, vol: &mut V) -> Result<Mounted, StoreFault>
        ensures mounts { V.reports → spec.Mounts (V.disk vol.old) (V.disk vol.new) result }
        ensures working { IfOk result (λ m. m.store.failed ≡ false) }
        ensures epoch { IfOk result (λ m. m.epoch ≡ m.store.epoch) }
        ensures low { IfOk result (λ m. m.format ≡ 1 → m.epoch < 2 ^ 63 - 1) }
        ensures short { IfOk result (λ m. All (λ bytes. length bytes ≤ max_record) m.closes) }
        ensures fits { IfOk result (λ m. length (blocks m.closes) < 2 ^ 64) }
        ensures safe { OnOk result (IsSafe (V.disk vol.new)) }
        ensures runs { Runs Same (V.disk vol.old) (V.disk vol.new) }
        ensures later { V.faults vol.old ≤ V.faults vol.new }
        ensures cause { IfErr result (λ wrong. spec.IsMountFault (V.faults vol.old) (V.faults vol.new) wrong) }
    {
        match vol.sync() {
            Err(_) => return Err(StoreFault::DiskFault),
            Ok(()) => {}
        }
        let Some((file, head)) = chosen(vol)? else {
            return Err(StoreFault::Missing);
        };
        let image = match image_of(alloc, vol, file, &head) {
            Err(wrong) => return Err(wrong),
            Ok(image) => image,
        };
        let (journal, closes) = match Journal::mount(alloc, vol, 2 + file) {
            Err(wrong) => return Err(wrong),
            Ok(mounted) => mounted,
        };
        Ok(Mounted {
            store: Store {
                epoch: head.epoch,
                journal,
                network: head.network,
                failed: false,
            },
            network: head.network,
            image,
            closes,
            epoch: head.epoch,
            format: head.format,
        })
    }

    /// Puts a record after the others. While it runs each crash leaves what was kept, or that with the record; from
    /// `Ok` on, that with the record. It takes no memory.
    pub fn append<V: Volume>(&mut self, vol: &mut V, buf: AppendBuf) -> Result<(), StoreFault>
        requires { V.reports → (self.old.failed ≡ true)
            ⊎ ((kept : Kept) × spec.IsSettled self.old (V.disk vol.old) kept) }
        ensures ok { V.reports → (kept : Kept) → spec.IsSettled self.old (V.disk vol.old) kept
            → OnOk result (spec.IsSettled self.new (V.disk vol.new) (grown kept buf)) }
        ensures runs { V.reports → (kept : Kept) → spec.IsSettled self.old (V.disk vol.old) kept
            → Runs (spec.HoldsEither kept (grown kept buf)) (V.disk vol.old) (V.disk vol.new) }
        ensures safe { OnOk result (IsSafe (V.disk vol.new)) }
        ensures working { OnOk result (self.new.failed ≡ false) }
        ensures failing { OnErr result (self.new.failed ≡ true) }
        ensures failed { self.old.failed ≡ true → (result ≡ Err fault.Failed) × (self.new ≡ self.old)
            × (vol.new ≡ vol.old) }
        ensures epoch { (self.new.epoch ≡ self.old.epoch) × (self.new.network ≡ self.old.network) }
        ensures sure { self.old.failed ≡ false → (Rose (V.faults vol.old) (V.faults vol.new) → ⊥) → IsOk result }
        ensures later { V.faults vol.old ≤ V.faults vol.new }
        ensures cause { IfErr result (λ wrong.
            IsAppendFault self.old.failed (V.faults vol.old) (V.faults vol.new) wrong) }
    {
        if self.failed {
            return Err(StoreFault::Failed);
        }
        match self.journal.append(vol, buf) {
            Ok(()) => Ok(()),
            Err(_) => {
                self.failed = true;
                Err(StoreFault::DiskFault)
            }
        }
    }

    /// Goes on to the next epoch: an image in format 2 in the place of the present one and its records. While it runs
    /// each crash leaves what was kept, or the new image without records; from `Ok` on, that. Its memory is taken
    /// before the first call on the volume; where it is refused, nothing has changed. The epoch is below 2^63 - 1.
    pub fn roll<V: Volume>(
        &mut self,
        alloc: Global,
        vol: &mut V,
        image: &StartImage,
    ) -> Result<(), StoreFault>
        requires settled { V.reports → (self.old.failed ≡ true)
            ⊎ ((kept : Kept) × spec.IsSettled self.old (V.disk vol.old) kept) }
        requires epoch { self.old.epoch < 2 ^ 63 - 1 }
        requires within { start_image.within image.now }
        ensures ok { V.reports → (kept : Kept) → spec.IsSettled self.old (V.disk vol.old) kept
            → OnOk result (spec.IsSettled self.new (V.disk vol.new) (rolled kept image.now)) }
        ensures runs { V.reports → (kept : Kept) → spec.IsSettled self.old (V.disk vol.old) kept
            → Runs (spec.HoldsEither kept (rolled kept image.now)) (V.disk vol.old) (V.disk vol.new) }
        ensures no_memory { result ≡ Err fault.NoMemory → (self.new ≡ self.old) × (vol.new ≡ vol.old) }
        ensures safe { OnOk result (IsSafe (V.disk vol.new)) }
        ensures working { OnOk result (self.new.failed ≡ false) }
        ensures failed { self.old.failed ≡ true → (result ≡ Err fault.Failed) × (self.new ≡ self.old)
            × (vol.new ≡ vol.old) }
        ensures failing { result ≡ Err fault.DiskFault → self.new.failed ≡ true }
        ensures epoch { OnOk result (self.new.epoch ≡ self.old.epoch + 1) }
        ensures kept { OnErr result (self.new.epoch ≡ self.old.epoch) }
        ensures network { self.new.network ≡ self.old.network }
        ensures later { V.faults vol.old ≤ V.faults vol.new }
        ensures cause { IfErr result (λ wrong.
            spec.IsRollFault self.old.failed (V.faults vol.old) (V.faults vol.new) wrong) }
    {
        if self.failed {
            return Err(StoreFault::Failed);
        }
        let epoch = self.epoch + 1;
        let Ok(piece) = after_gate(alloc, epoch, &self.network, image) else {
            return Err(StoreFault::NoMemory);
        };
        match turn(vol, (epoch % 2) as u8, piece.as_slice()) {
            Ok(journal) => {
                self.epoch = epoch;
                self.journal = journal;
                Ok(())
            }
            Err(_) => {
                self.failed = true;
                Err(StoreFault::DiskFault)
            }
        }
    }

    /// The present epoch.
    pub fn epoch(&self) -> u64
        ensures { result ≡ self.now.epoch }
    {
        self.epoch
    }
}
