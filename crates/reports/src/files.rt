//! A file of the closes of a run, written at the end of its input.

ghost use Rattle.std.specs.Prelude.{◌≡◌, ℕ, ◌^◌, ◌≤◌, List, []};
ghost use Rattle.run_outcome.specs.run_streams.Seen.{Seen, seen};
ghost use Rattle.run_outcome.specs.Lines.{refused_line};
ghost use Rattle.run_outcome.specs.FileRun.{refused_with};
ghost use Rattle.reports.specs.Files as file;
ghost use Rattle.reports.specs.Gathering as spec;
ghost use Rattle.reports.specs.Writing.{WritesFile};

use crate::ends::{report, report_no_memory};
use crate::gather::GatherText;
use crate::gathering::{Stop, gather_all};
use ledger_close::{CloseFault, Ledger};
use outside::{Sink, Source, Steps, write_all};
use run_outcome::Status;
use run_text::refused_text;
use std::alloc::Global;
use std::sync::ledger::Ledger as Count;

/// A file of the closes of a run, written at the end of its input.
pub trait ClosesFile: GatherText + Drop {
    /// The file of no closes, after the last ledger that closed.
    fn begin(alloc: Global, ledger: &Ledger) -> Self
        ensures nothing { Self.gathers result ledger.now.state [] }
        ensures small { Self.kind.AreSmall [] }
        ensures refused { Self.kind.refused ≡ refused_with };
}

/// Writes the line of a record that is refused to standard error.
fn report_refusal<E: Sink>(alloc: Global, ledger: &Ledger, fault: CloseFault, err: &mut E) -> Status
    ensures { file.IsRefusalReported (refused_line ledger.now.state.header fault)
        (seen E.taken E.faults err.old err.new) result }
{
    let Ok(line) = refused_text(alloc, ledger.header(), fault) else {
        return report_no_memory(err);
    };
    match write_all(err, line.as_slice()) {
        Ok(()) => Status::Refused,
        Err(_) => Status::WriteFault,
    }
}

/// Writes what was gathered of the closes, or the line of what stopped the run, which stands on standard error.
fn finish<G: GatherText, O: Sink, E: Sink>(
    alloc: Global,
    ledger: &Ledger,
    gathered: &G,
    stop: Stop,
    out: &mut O,
    err: &mut E,
) -> Status
    requires { G.kind.refused ≡ refused_with }
    ensures { (p : spec.RunPosition) (input : Seen)
        → spec.Stopped G.kind (G.gathers gathered.now) p ledger.now.state input stop
        → WritesFile G.kind p.state p.at p.ahead input (seen O.taken O.faults out.old out.new)
        (seen E.taken E.faults err.old err.new) result }
{
    match stop {
        Stop::AtEnd => {
            let end = gathered.write(alloc, out);
            report(alloc, end, err)
        }
        Stop::Refused(fault) => report_refusal(alloc, ledger, fault, err),
        Stop::Ended(end) => report(alloc, end, err),
    }
}

/// Closes a ledger for each record after it, and at the end of the input writes a file of the closes; or it writes the
/// line of what stopped the run, such as that the file would be too long. It writes the line of the end too.
pub fn write_closes<F: ClosesFile, I: Source, O: Sink, E: Sink, L: Count>(
    alloc: Global,
    ledger: &mut Ledger,
    start: u128,
    input: &mut I,
    ahead: &mut Vec<u8>,
    out: &mut O,
    err: &mut E,
    steps: &mut Steps<L>,
) -> Status
    requires { start ≤ 2 ^ 64 }
    ensures { WritesFile F.kind ledger.old.state start ahead.old.items (seen I.left I.faults input.old input.new)
        (seen O.taken O.faults out.old out.new) (seen E.taken E.faults err.old err.new) result }
{
    let mut gathered = F::begin(alloc, ledger);
    let stop = gather_all(alloc, ledger, start, input, ahead, &mut gathered, steps);
    finish(alloc, ledger, &gathered, stop, out, err)
}
