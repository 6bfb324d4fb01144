//! The commands `history` and `changes`, which write a file of the closes of the records after a start image.

ghost use Rattle.std.specs.Prelude.{◌≡◌};
ghost use Rattle.stored_outcome.specs.run_streams.Seen.{seen};
ghost use Rattle.stored_outcome.specs.run_outcome.FileRun.{DidWriteFile};
ghost use Rattle.stored_outcome.specs.run_outcome.HistoryRun.{history_file};
ghost use Rattle.stored_outcome.specs.run_outcome.ChangesRun.{changes_file};
ghost use Rattle.stored_outcome.specs.run_outcome.Statuses.{status_code};
ghost use Rattle.stored_outcome.specs.run_outcome.declared.status.Status.{Status};

use crate::starting::{Started, start};
use outside::{Sink, Source, Steps};
use reports::{ChangeRecords, ClosesFile, StatedHistory, report, write_closes};
use std::alloc::Global;
use std::sync::ledger::Ledger as Count;
use stored_outcome::run_outcome::Status;

/// Runs a command that writes a file of its closes, with its line on standard error.
pub(crate) fn write_file<F: ClosesFile, I: Source, O: Sink, E: Sink, L: Count>(
    alloc: Global,
    passphrase: &str,
    input: &mut I,
    out: &mut O,
    err: &mut E,
    steps: &mut Steps<L>,
) -> Status
    ensures { DidWriteFile F.kind passphrase.now (seen I.left I.faults input.old input.new)
        (seen O.taken O.faults out.old out.new) (seen E.taken E.faults err.old err.new) result }
{
    let mut ahead = Vec::new(alloc);
    match start(alloc, passphrase, input, &mut ahead) {
        Ok(Started { mut ledger, at }) => write_closes::<F, I, O, E, L>(
            alloc,
            &mut ledger,
            at as u128,
            input,
            &mut ahead,
            out,
            err,
            steps,
        ),
        Err(end) => report(alloc, end, err),
    }
}

/// Runs `history` on the network with this passphrase: it closes a ledger in memory for each record after a start
/// image, and at the end of the input writes the three files of an archive. It answers the exit status of the process.
pub fn do_history<I: Source, O: Sink, E: Sink, L: Count>(
    alloc: Global,
    network: &str,
    input: &mut I,
    out: &mut O,
    err: &mut E,
    steps: &mut Steps<L>,
) -> u8
    ensures { (end : Status) × ((result ≡ status_code end)
        × DidWriteFile history_file network.now (seen I.left I.faults input.old input.new)
        (seen O.taken O.faults out.old out.new) (seen E.taken E.faults err.old err.new) end) }
{
    write_file::<StatedHistory, I, O, E, L>(alloc, network, input, out, err, steps).code()
}

/// Runs `changes` on the network with this passphrase: it closes a ledger in memory for each record after a start
/// image, and at the end of the input writes what each close changed of the entries. It answers the exit status of the
/// process.
pub fn do_changes<I: Source, O: Sink, E: Sink, L: Count>(
    alloc: Global,
    network: &str,
    input: &mut I,
    out: &mut O,
    err: &mut E,
    steps: &mut Steps<L>,
) -> u8
    ensures { (end : Status) × ((result ≡ status_code end)
        × DidWriteFile changes_file network.now (seen I.left I.faults input.old input.new)
        (seen O.taken O.faults out.old out.new) (seen E.taken E.faults err.old err.new) end) }
{
    write_file::<ChangeRecords, I, O, E, L>(alloc, network, input, out, err, steps).code()
}
