//! Keeping records in a store: the keeper of a run over one.

ghost use Rattle.std.specs.Prelude.{◌≡◌, ◌≤◌, ◌<◌, ◌-◌, ◌^◌, ℕ, List, Ok, Err, IfOk, OnOk, length, false};
ghost use Rattle.outside.specs.Streams.{HasCause};
ghost use Rattle.stored_outcome.specs.close_rules.State.{ClosingState};
ghost use Rattle.stored_outcome.specs.close_rules.Close.{PreparedClose, IsClose};
ghost use Rattle.outside.specs.Disk.{Disk, Runs};
ghost use Rattle.replay.specs.Keeping as spec;
ghost use Rattle.replay.specs.declared.keeper.KeepFault.TheVariants as keep;
ghost use Rattle.replay.specs.Stored as stored;

use crate::keeper::{KeepFault, Keeper};
use image_store::{AppendBuf, Store, StoreFault};
use outside::{Failed, Volume};
use std::alloc::{AllocError, Global};
use worker_merges::ledger_close::Ledger;

/// A store that keeps the records of a run. After each ledger whose successor's number 64 divides it goes on to the
/// next epoch.
#[derive(Drop)]
pub(crate) struct Stored {
    pub(crate) store: Store,
}

/// An epoch from here on is the last one.
const LAST_EPOCH: u64 = 9223372036854775807;

/// Why the store didn't go on to the next epoch.
fn keep_fault(fault: StoreFault) -> KeepFault
    ensures { result ≡ stored.keep_fault_of fault }
{
    match fault {
        StoreFault::NoMemory => KeepFault::NoMemory,
        StoreFault::DiskFault => KeepFault::DiskFault,
        StoreFault::Failed => KeepFault::DiskFault,
        StoreFault::BadStore { file: _, place: _ } => KeepFault::DiskFault,
        StoreFault::Missing => KeepFault::DiskFault,
        StoreFault::AlreadyThere => KeepFault::DiskFault,
    }
}

impl Stored {
    /// Goes on to the next epoch, in format 2, with the image of this ledger, which the store keeps in either format.
    /// What is kept stays.
    pub(crate) fn renew<V: Volume>(
        &mut self,
        alloc: Global,
        vol: &mut V,
        ledger: &Ledger,
    ) -> Result<(), KeepFault>
        requires works { self.old.store.failed ≡ false }
        requires epoch { self.old.store.epoch < 2 ^ 63 - 1 }
        requires ready { V.reports → (format : ℕ)
            × spec.Ready (stored.IsStored format self.old.store (V.disk vol.old) ledger.now.state) (V.disk vol.old)
            ledger.now.state }
        ensures kept { V.reports → OnOk result (spec.Ready (stored.IsStored 2 self.new.store (V.disk vol.new)
            ledger.now.state) (V.disk vol.new) ledger.now.state) }
        ensures no_memory { result ≡ Err keep.NoMemory → (self.new.store ≡ self.old.store) × (vol.new ≡ vol.old) }
        ensures runs { V.reports
            → Runs (spec.OpensEither ledger.now.state ledger.now.state) (V.disk vol.old) (V.disk vol.new) }
        ensures works { OnOk result (self.new.store.failed ≡ false) }
        ensures later { V.faults vol.old ≤ V.faults vol.new }
        ensures cause { spec.IsCaused (Unit {0}) (V.faults vol.old) (V.faults vol.new) result }
    {
        let Ok(image) = ledger.image(alloc) else {
            return Err(KeepFault::NoMemory);
        };
        match self.store.roll(alloc, vol, &image) {
            Ok(()) => Ok(()),
            Err(fault) => Err(keep_fault(fault)),
        }
    }
}

impl Keeper for Stored {
    type Piece = AppendBuf;

    ghost stores = { Unit {0} };

    ghost held = { λ piece. piece };

    ghost works = { λ k. k.store.failed ≡ false };

    ghost keeps = { λ k d s. stored.IsStored 2 k.store d s };

    fn hold(&self, alloc: Global, bytes: &[u8]) -> Result<AppendBuf, AllocError> {
        AppendBuf::new(alloc, bytes)
    }

    fn keep<V: Volume>(&mut self, vol: &mut V, piece: AppendBuf) -> Result<(), Failed> {
        match self.store.append(vol, piece) {
            Ok(()) => Ok(()),
            Err(_) => Err(Failed),
        }
    }

    fn settle<V: Volume>(
        &mut self,
        alloc: Global,
        vol: &mut V,
        ledger: &Ledger,
    ) -> Result<(), KeepFault> {
        let next = u64::from(ledger.header().ledger_seq) + 1;
        if next % 64 != 0 {
            return Ok(());
        }
        if self.store.epoch() >= LAST_EPOCH {
            return Ok(());
        }
        self.renew(alloc, vol, ledger)
    }
}
