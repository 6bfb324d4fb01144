//! A run over the store that a volume keeps, but for the line on standard error.

ghost use Rattle.std.specs.Prelude.{◌≡◌, ◌≤◌, ◌<◌, ◌^◌, false, length, IfOk, IfErr, ◌-◌};
ghost use Rattle.std.specs.Io.KnownBytes.{IsAtEnd};
ghost use Rattle.outside.specs.Streams.{Rose};
ghost use Rattle.outside.specs.Disk.{Runs, Same};
ghost use Rattle.stored_outcome.specs.run_streams.Seen.{seen};
ghost use Rattle.stored_outcome.specs.run_streams.SeenVolume.{seen_volume};
ghost use Rattle.stored_outcome.specs.run_outcome.declared.status.Status.TheVariants as status;
ghost use Rattle.image_store.specs.gate_journal.Records.{blocks};
ghost use Rattle.stored_outcome.specs.StoredRun.{IsRunEnd, IsUnopenedEnd, DidNotRun};
ghost use Rattle.replay.specs.Stored.{IsStored};
ghost use Rattle.replay.specs.Keeping.{Ready};
ghost use Rattle.replay.specs.StoredRuns as spec;

use crate::again::{AgainFault, close_again};
use crate::closer::{Opened, follow_with};
use crate::closes::Closing;
use crate::crew::Nobody;
use crate::stored::Stored;
use image_store::{Mounted, Store, StoreFault, image_offset};
use item_list::ItemList;
use ledger_types::Hash;
use outside::{Sink, Source, Steps, Volume};
use std::alloc::Global;
use std::sync::ledger::Ledger as Count;
use stored_outcome::run_outcome::Status;
use worker_merges::ledger_close::{ImageFault, Ledger};
use xdr_header::StartImage;

/// The end of a run whose store isn't mounted.
fn status_of(fault: StoreFault) -> Status
    ensures { result ≡ spec.status_of fault }
{
    match fault {
        StoreFault::DiskFault => Status::DiskFault,
        StoreFault::Failed => Status::DiskFault,
        StoreFault::BadStore { file, place } => Status::BadStore { file, place },
        StoreFault::Missing => Status::Missing,
        StoreFault::AlreadyThere => Status::AlreadyThere,
        StoreFault::NoMemory => Status::NoMemory,
    }
}

/// The end of a run whose image, in a file of this format, is no ledger's.
fn image_status(fault: ImageFault, epoch: u64, format: u8) -> Status
    ensures { result ≡ spec.image_status fault epoch format }
{
    match fault {
        ImageFault::NoMemory => Status::NoMemory,
        ImageFault::BadImage { rule: _ } => Status::BadStore {
            file: (epoch % 2) as u8,
            place: image_offset(format),
        },
    }
}

/// The ledger that an image and the records after it yield.
fn restore<L: Count>(
    image: StartImage,
    network: Hash,
    closes: &[ItemList<u8>],
    epoch: u64,
    format: u8,
    steps: &mut Steps<L>,
) -> Result<Ledger, Status>
    requires short { spec.AreShort closes.now }
    requires fits { length (blocks closes.now) < 2 ^ 64 }
    ensures { spec.Restores (spec.kept_of format epoch network image closes.now) result }
{
    let mut ledger = match Ledger::from_image(image, network) {
        Ok(ledger) => ledger,
        Err(fault) => return Err(image_status(fault, epoch, format)),
    };
    match close_again(&mut ledger, format, closes, steps) {
        Ok(()) => Ok(ledger),
        Err(AgainFault::NoMemory) => Err(Status::NoMemory),
        Err(AgainFault::Refused { offset }) => Err(Status::BadStore {
            file: 2 + (epoch % 2) as u8,
            place: offset,
        }),
    }
}

/// Mounts a store, and closes its records again.
pub(crate) fn open<V: Volume, L: Count>(
    alloc: Global,
    vol: &mut V,
    steps: &mut Steps<L>,
) -> Result<Opened, Status>
    ensures works { IfOk result (λ o. o.closing.keeper.store.failed ≡ false) }
    ensures low { IfOk result (λ o. o.format ≡ 1 → o.closing.keeper.store.epoch < 2 ^ 63 - 1) }
    ensures opens { V.reports
        → spec.OpensSo (λ o. spec.IsOpened o.format o.records o.closing.ledger.state o.closing.keeper.store
        (V.disk vol.new))
        (V.disk vol.old).reads (V.disk vol.new).reads result }
    ensures runs { Runs Same (V.disk vol.old) (V.disk vol.new) }
    ensures later { V.faults vol.old ≤ V.faults vol.new }
    ensures cause { IfErr result (λ end. spec.IsUnbegun (Rose (V.faults vol.old) (V.faults vol.new)) end) }
{
    let Mounted {
        store,
        network,
        image,
        closes,
        epoch,
        format,
    } = match Store::mount(alloc, vol) {
        Ok(mounted) => mounted,
        Err(fault) => return Err(status_of(fault)),
    };
    match restore(image, network, closes.as_slice(), epoch, format, steps) {
        Ok(ledger) => Ok(Opened {
            closing: Closing {
                ledger,
                keeper: Stored { store },
            },
            records: closes.len(),
            format,
        }),
        Err(end) => Err(end),
    }
}

/// Mounts a store, closes a ledger for each record of the input, and has it kept.
pub(crate) fn run_stored<I: Source, O: Sink, V: Volume, L: Count>(
    alloc: Global,
    input: &mut I,
    out: &mut O,
    vol: &mut V,
    steps: &mut Steps<L>,
) -> Status
    ensures { spec.RanStored (seen I.left I.faults input.old input.new) (seen O.taken O.faults out.old out.new)
        (seen_volume V.reports V.disk V.faults vol.old vol.new) result }
{
    match open(alloc, vol, steps) {
        Ok(mut opened) => {
            follow_with(alloc, &Nobody, &mut (), &mut opened, vol, input, out, steps)
        }
        Err(end) => end,
    }
}
