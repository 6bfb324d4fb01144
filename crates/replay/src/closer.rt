//! An opened store, and closing records after it with or without workers.

ghost use Rattle.std.specs.Prelude.{◌≡◌, ◌≤◌, [], false, OnOk};
ghost use Rattle.outside.specs.Disk.{Runs};
ghost use Rattle.stored_outcome.specs.run_streams.Seen.{seen};
ghost use Rattle.stored_outcome.specs.run_streams.SeenVolume.{seen_volume};
ghost use Rattle.replay.specs.Stored.{IsStored, CanGoOn};
ghost use Rattle.replay.specs.Keeping.{IsGoing, DidFollow, OpensEither, IsCaused};

use crate::closes::{Closing, Records, follow};
use crate::crew::Crew;
use crate::keeper::KeepFault;
use crate::stored::Stored;
use outside::{Sink, Source, Steps, Volume};
use std::alloc::Global;
use std::sync::ledger::Ledger as Count;
use stored_outcome::run_outcome::Status;

/// A ledger, the store that keeps it, and how many records followed the store's image as it was opened.
#[derive(Drop)]
pub(crate) struct Opened {
    pub(crate) closing: Closing<Stored>,
    pub(crate) records: usize,
    /// The format of the store's image as it was opened, 1 or 2.
    pub(crate) format: u8,
}

/// Brings a store of format 1 over to format 2, by going on to the next epoch with the ledger as it is.
fn migrate<V: Volume>(alloc: Global, opened: &mut Opened, vol: &mut V) -> Result<(), KeepFault>
    requires { CanGoOn opened.old.format opened.old.closing.keeper.store V.reports (V.disk vol.old)
        opened.old.closing.ledger.state }
    ensures going { OnOk result (IsGoing (Unit {0}) (opened.new.closing.keeper.store.failed ≡ false) V.reports
        (IsStored 2 opened.new.closing.keeper.store) (V.disk vol.new) opened.new.closing.ledger.state) }
    ensures runs { V.reports → Runs (OpensEither opened.old.closing.ledger.state opened.old.closing.ledger.state)
        (V.disk vol.old) (V.disk vol.new) }
    ensures state { opened.new.closing.ledger.state ≡ opened.old.closing.ledger.state }
    ensures later { V.faults vol.old ≤ V.faults vol.new }
    ensures cause { IsCaused (Unit {0}) (V.faults vol.old) (V.faults vol.new) result }
{
    if opened.format != 1 {
        return Ok(());
    }
    let closing = &mut opened.closing;
    closing.keeper.renew(alloc, vol, &closing.ledger)
}

/// Closes a ledger for each record of the input, with the help of a crew. A store of format 1 is brought over to format
/// 2 before the input is read.
pub(crate) fn follow_with<C: Crew, V: Volume, I: Source, O: Sink, L: Count>(
    alloc: Global,
    crew: &C,
    side: &mut C::Side,
    opened: &mut Opened,
    vol: &mut V,
    input: &mut I,
    out: &mut O,
    steps: &mut Steps<L>,
) -> Status
    requires crew { C.has crew.now side.old }
    requires open { CanGoOn opened.old.format opened.old.closing.keeper.store V.reports (V.disk vol.old)
        opened.old.closing.ledger.state }
    ensures crew { C.has crew.now side.new }
    ensures followed { DidFollow (Unit {0}) opened.old.closing.ledger.state 0 []
        (seen I.left I.faults input.old input.new) (seen O.taken O.faults out.old out.new)
        (seen_volume V.reports V.disk V.faults vol.old vol.new) result }
{
    match migrate(alloc, opened, vol) {
        Ok(()) => {}
        Err(KeepFault::DiskFault) => return Status::DiskFault,
        Err(KeepFault::NoMemory) => return Status::NoMemory,
    }
    let records = Records {
        at: 0,
        ahead: Vec::new(alloc),
    };
    follow(
        alloc,
        crew,
        side,
        &mut opened.closing,
        vol,
        records,
        input,
        out,
        steps,
    )
}
