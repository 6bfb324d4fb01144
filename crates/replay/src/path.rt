//! The command `path`, which answers a query by the ledger of a store.

ghost use Rattle.std.specs.Prelude.{◌≡◌};
ghost use Rattle.stored_outcome.specs.run_streams.Seen.{seen};
ghost use Rattle.stored_outcome.specs.run_streams.SeenVolume.{seen_volume};
ghost use Rattle.stored_outcome.specs.run_outcome.Statuses.{status_code};
ghost use Rattle.stored_outcome.specs.run_outcome.declared.status.Status.{Status};
ghost use Rattle.stored_outcome.specs.Path.{DidPath};
ghost use Rattle.replay.specs.Asking as spec;

use crate::stored_run::open;
use outside::{Sink, Source, Steps, Volume};
use reports::{answer_query, report};
use std::alloc::Global;
use std::sync::ledger::Ledger as Count;
use stored_outcome::run_outcome::Status;

/// Opens the store that a volume keeps, and answers the query that is the entire input by its ledger. The volume stays
/// as it is, also where the store has format 1.
fn ask<I: Source, O: Sink, V: Volume, L: Count>(
    alloc: Global,
    input: &mut I,
    out: &mut O,
    vol: &mut V,
    steps: &mut Steps<L>,
) -> Status
    ensures { spec.Asks (seen I.left I.faults input.old input.new) (seen O.taken O.faults out.old out.new)
        (seen_volume V.reports V.disk V.faults vol.old vol.new) result }
{
    match open(alloc, vol, steps) {
        Ok(opened) => answer_query(alloc, &opened.closing.ledger, input, out),
        Err(end) => end,
    }
}

/// Runs `path`, with its line on standard error.
pub(crate) fn path<I: Source, O: Sink, E: Sink, V: Volume, L: Count>(
    alloc: Global,
    input: &mut I,
    out: &mut O,
    err: &mut E,
    vol: &mut V,
    steps: &mut Steps<L>,
) -> Status
    ensures { DidPath (seen I.left I.faults input.old input.new) (seen O.taken O.faults out.old out.new)
        (seen E.taken E.faults err.old err.new) (seen_volume V.reports V.disk V.faults vol.old vol.new) result }
{
    let end = ask(alloc, input, out, vol, steps);
    report(alloc, end, err)
}

/// Runs `path`: it opens the store that the volume keeps, reads a query to the end of the input, and prints the path
/// that costs the least by the ledger's entries, or that there is none, or why the query isn't answered. The volume
/// stays as it is. It answers the exit status of the process.
pub fn do_path<I: Source, O: Sink, E: Sink, V: Volume, L: Count>(
    alloc: Global,
    input: &mut I,
    out: &mut O,
    err: &mut E,
    vol: &mut V,
    steps: &mut Steps<L>,
) -> u8
    ensures { (end : Status) × ((result ≡ status_code end)
        × DidPath (seen I.left I.faults input.old input.new) (seen O.taken O.faults out.old out.new)
        (seen E.taken E.faults err.old err.new) (seen_volume V.reports V.disk V.faults vol.old vol.new) end) }
{
    path(alloc, input, out, err, vol, steps).code()
}
