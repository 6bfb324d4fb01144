//! The last text of a run, and the line of its end.

ghost use Rattle.std.specs.Prelude.{◌≡◌, ◌≤◌, IfOk};
ghost use Rattle.run_outcome.specs.run_streams.Seen.{seen};
ghost use Rattle.run_outcome.specs.Lines.{end_line, refused_line};
ghost use Rattle.run_outcome.specs.Statuses.{status_line};
ghost use Rattle.run_outcome.specs.declared.status.Status.TheVariants as status;
ghost use Rattle.run_outcome.specs.Run.{IsReported};
ghost use Rattle.reports.specs.Ends.{Wrote, IsReportedOrRefused, IsReportedSo};

use ledger_close::{CloseFault, Ledger};
use outside::{Sink, write_all};
use run_outcome::Status;
use run_text::{bad_image_line, bad_input_line, bad_store_line, end_text, refused_text};
use std::alloc::{AllocError, Global};

/// Writes the last text of a run that ends with `entire`, where the sink takes it.
pub fn write_last<O: Sink>(text: &[u8], entire: Status, out: &mut O) -> Status
    ensures wrote { Wrote (seen O.taken O.faults out.old out.new) text.now entire result }
    ensures later { O.faults out.old ≤ O.faults out.new }
{
    match write_all(out, text) {
        Ok(()) => entire,
        Err(_) => Status::WriteFault,
    }
}

/// Writes the line at the end of the input.
pub fn write_end<O: Sink>(alloc: Global, ledger: &Ledger, out: &mut O) -> Status
    ensures { Wrote (seen O.taken O.faults out.old out.new) (end_line ledger.now.state.header) status.Done result }
{
    match end_text(alloc, ledger.header(), &ledger.header_hash()) {
        Ok(text) => write_last(text.as_slice(), Status::Done, out),
        Err(_) => Status::NoMemory,
    }
}

/// Writes the line of a record that is refused.
pub fn write_refusal<O: Sink>(
    alloc: Global,
    ledger: &Ledger,
    fault: CloseFault,
    out: &mut O,
) -> Status
    ensures wrote { Wrote (seen O.taken O.faults out.old out.new) (refused_line ledger.now.state.header fault)
        status.Refused result }
    ensures later { O.faults out.old ≤ O.faults out.new }
{
    match refused_text(alloc, ledger.header(), fault) {
        Ok(text) => write_last(text.as_slice(), Status::Refused, out),
        Err(_) => Status::NoMemory,
    }
}

/// Writes the line of an end to standard error. An end that can't be written is a write fault.
fn write_line<E: Sink>(line: &[u8], end: Status, err: &mut E) -> Status
    requires { line.now ≡ status_line end }
    ensures { IsReported end (seen E.taken E.faults err.old err.new) result }
{
    match write_all(err, line) {
        Ok(()) => end,
        Err(_) => Status::WriteFault,
    }
}

/// Writes that the words are no command.
pub fn report_usage<E: Sink>(err: &mut E) -> Status
    ensures { IsReported status.Usage (seen E.taken E.faults err.old err.new) result }
{
    write_line(b"usage\n", Status::Usage, err)
}

/// Writes that memory was refused.
pub fn report_no_memory<E: Sink>(err: &mut E) -> Status
    ensures { IsReported status.NoMemory (seen E.taken E.faults err.old err.new) result }
{
    write_line(b"no memory\n", Status::NoMemory, err)
}

/// Writes an end whose line has numbers. Where memory was refused for the line, that is the end.
fn report_made<E: Sink>(line: Result<Vec<u8>, AllocError>, end: Status, err: &mut E) -> Status
    requires { IfOk line (λ made. made.items ≡ status_line end) }
    ensures { IsReportedOrRefused end (seen E.taken E.faults err.old err.new) result }
{
    match line {
        Ok(line) => write_line(line.as_slice(), end, err),
        Err(_) => report_no_memory(err),
    }
}

/// Writes an end. Lines without numbers take no memory, so that an allocation failure can't hide a fault after a write.
pub fn report<E: Sink>(alloc: Global, end: Status, err: &mut E) -> Status
    ensures { IsReportedSo end (seen E.taken E.faults err.old err.new) result }
{
    match end {
        Status::Done => write_line(b"", end, err),
        Status::Usage => report_usage(err),
        Status::Refused => write_line(b"", end, err),
        Status::ReadFault => write_line(b"read fault\n", end, err),
        Status::WriteFault => write_line(b"write fault\n", end, err),
        Status::DiskFault => write_line(b"disk fault\n", end, err),
        Status::BadStore { file, place } => report_made(
            bad_store_line(alloc, file, place),
            end,
            err,
        ),
        Status::NoMemory => report_no_memory(err),
        Status::BadInput { at } => report_made(bad_input_line(alloc, at), end, err),
        Status::BadImage { rule } => report_made(bad_image_line(alloc, rule), end, err),
        Status::Missing => write_line(b"missing\n", end, err),
        Status::AlreadyThere => write_line(b"already there\n", end, err),
        Status::TooLarge => write_line(b"too large\n", end, err),
    }
}
