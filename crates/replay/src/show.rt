//! The command `show`, but for the line on standard error.

ghost use Rattle.std.specs.Prelude.{◌≡◌, ◌≤◌, length};
ghost use Rattle.std.specs.FinMap.{entries};
ghost use Rattle.outside.specs.Streams.{Rose};
ghost use Rattle.outside.specs.Disk.{Runs, Same};
ghost use Rattle.stored_outcome.specs.run_streams.Seen.{seen, IsUntouched};
ghost use Rattle.stored_outcome.specs.run_streams.SeenVolume.{seen_volume};
ghost use Rattle.stored_outcome.specs.run_outcome.Lines.{shown_lines};
ghost use Rattle.stored_outcome.specs.run_outcome.declared.status.Status.TheVariants as status;
ghost use Rattle.stored_outcome.specs.StoredRun.{IsUnopenedEnd};
ghost use Rattle.reports.specs.Ends.{Wrote};
ghost use Rattle.replay.specs.Showing as spec;

use crate::closer::Opened;
use crate::stored_run::open;
use outside::{Sink, Steps, Volume};
use reports::write_last;
use run_text::shown_text;
use std::alloc::Global;
use std::sync::ledger::Ledger as Count;
use stored_outcome::run_outcome::Status;

/// Writes the lines of an opened store.
fn show_opened<O: Sink>(alloc: Global, opened: &Opened, out: &mut O) -> Status
    ensures { Wrote (seen O.taken O.faults out.old out.new)
        (shown_lines opened.now.closing.ledger.state.header opened.now.closing.keeper.store.epoch opened.now.records
        (length (entries opened.now.closing.ledger.state.entries))) status.Done result }
{
    let ledger = &opened.closing.ledger;
    let digest = ledger.header_hash();
    let epoch = opened.closing.keeper.store.epoch();
    match shown_text(
        alloc,
        ledger.header(),
        &digest,
        epoch,
        opened.records,
        ledger.entry_count(),
    ) {
        Ok(text) => write_last(text.as_slice(), Status::Done, out),
        Err(_) => Status::NoMemory,
    }
}

/// Opens the store that a volume keeps, and writes what it keeps as four lines. The volume stays as it is.
pub(crate) fn show<O: Sink, V: Volume, L: Count>(
    alloc: Global,
    out: &mut O,
    vol: &mut V,
    steps: &mut Steps<L>,
) -> Status
    ensures { spec.Shows (seen O.taken O.faults out.old out.new)
        (seen_volume V.reports V.disk V.faults vol.old vol.new) result }
{
    match open(alloc, vol, steps) {
        Ok(opened) => show_opened(alloc, &opened, out),
        Err(end) => end,
    }
}
