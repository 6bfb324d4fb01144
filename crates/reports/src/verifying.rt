//! The command `verify`, but for the line on standard error. The input is held once, and its files once more until the
//! input is dropped.

ghost use Rattle.std.specs.Prelude.{◌≡◌, ◌≤◌, ℕ, List, [], drop, length, IfOk, MatchResult, Ok};
ghost use Rattle.xdr_core.specs.Format.{IsBytes};
ghost use Rattle.archive_files.specs.declared.form.StatedHistory.{StatedHistory as AStatedHistory};
ghost use Rattle.run_outcome.specs.run_streams.Seen.{seen};
ghost use Rattle.run_outcome.specs.declared.status.Status.TheVariants as status;
ghost use Rattle.reports.specs.Ends.{Wrote};
ghost use Rattle.reports.specs.HistoryInput as spec;
ghost use Rattle.reports.specs.Verifying.{Verifies};

use crate::ends::write_last;
use crate::input_end::end_input;
use archive_files::{
    HistoryFault, StatedHistory, read_stated_history, stated_history_length, verify,
};
use outside::{Sink, Source};
use record_stream::{Measure, PieceFault, read_piece};
use run_outcome::Status;
use run_text::{unverified_text, verified_text};
use std::alloc::{AllocError, Global};
use xdr_core::{Cursor, ReadFault, XdrFault};

/// The text of a history.
struct HistoryLength;

fn history_length(text: &[u8]) -> Result<usize, XdrFault>
    ensures { result ≡ spec.history_end text.now }
{
    stated_history_length(text)
}

impl Measure for HistoryLength {
    ghost measured = { spec.history_end };

    fn measure(text: &[u8]) -> Result<usize, XdrFault> {
        history_length(text)
    }
}

/// The end of a run whose input has this fault in its history.
fn bad_history(text: &[u8], fault: XdrFault) -> Status
    ensures fits { IsBytes text.now }
    ensures end { result ≡ status.BadInput fault.at }
{
    Status::BadInput {
        at: fault.at as u128,
    }
}

/// Reads until a history is ahead, and answers where it ends.
fn read_prefix<I: Source>(input: &mut I, ahead: &mut Vec<u8>) -> Result<usize, Status>
    requires { ahead.old.items ≡ [] }
    ensures { MatchResult result
        (λ at. spec.IsPrefix at ahead.new.items (seen I.left I.faults input.old input.new))
        (λ end. spec.IsUnread (seen I.left I.faults input.old input.new) end) }
{
    match read_piece::<HistoryLength, I>(input, ahead) {
        Ok(end) => Ok(end),
        Err(PieceFault::Xdr(fault)) => Err(bad_history(ahead.as_slice(), fault)),
        Err(PieceFault::Failed) => Err(Status::ReadFault),
        Err(PieceFault::NoMemory) => Err(Status::NoMemory),
    }
}

/// The bytes after the history at the start of a text.
fn after_history(text: &[u8], end: usize) -> &[u8]
    requires { spec.history_end text.now ≡ Ok end }
    ensures fits { IsBytes text.entry.now }
    ensures rest { result.now ≡ drop end text.entry.now }
{
    text.split_at(end).1
}

/// Reads the input to its end, as a history. Memory that it doesn't need is given back.
fn read_entire<I: Source>(alloc: Global, input: &mut I) -> Result<Vec<u8>, Status>
    ensures { MatchResult result
        (λ text. spec.IsEntire text.items (seen I.left I.faults input.old input.new))
        (λ end. spec.IsUnread (seen I.left I.faults input.old input.new) end) }
{
    let mut ahead = Vec::new(alloc);
    let at = read_prefix(input, &mut ahead)?;
    let rest = after_history(ahead.as_slice(), at);
    match end_input(at, input, rest) {
        Ok(()) => {
            ahead.shrink_to_fit();
            Ok(ahead)
        }
        Err(end) => Err(end),
    }
}

/// The history that a text is.
fn history_of(alloc: Global, text: &[u8]) -> Result<StatedHistory, AllocError>
    requires { (h : AStatedHistory) × spec.IsText h text.now }
    ensures { IfOk result (λ history. (h : AStatedHistory) → spec.IsText h text.now → history ≡ h) }
{
    match read_stated_history(alloc, &mut Cursor::new(text)) {
        Ok(history) => Ok(history),
        Err(ReadFault::NoMemory) => Err(AllocError),
        Err(ReadFault::Xdr(_)) => unreachable!(),
    }
}

/// Reads the input to its end, as a history.
fn read_history<I: Source>(alloc: Global, input: &mut I) -> Result<StatedHistory, Status>
    ensures { MatchResult result
        (λ h. spec.IsInput h (seen I.left I.faults input.old input.new))
        (λ end. spec.IsUnread (seen I.left I.faults input.old input.new) end) }
{
    let text = read_entire(alloc, input)?;
    match history_of(alloc, text.as_slice()) {
        Ok(history) => Ok(history),
        Err(_) => Err(Status::NoMemory),
    }
}

/// Writes a line that may have been refused memory.
fn write_made<O: Sink>(line: Result<Vec<u8>, AllocError>, entire: Status, out: &mut O) -> Status
    ensures { (text : List ℕ) → IfOk line (λ made. made.items ≡ text)
        → Wrote (seen O.taken O.faults out.old out.new) text entire result }
{
    match line {
        Ok(line) => write_last(line.as_slice(), entire, out),
        Err(_) => Status::NoMemory,
    }
}

/// Writes the line of a history's fault.
fn write_fault<O: Sink>(alloc: Global, fault: HistoryFault, out: &mut O) -> Status
    ensures { spec.WroteFault fault (seen O.taken O.faults out.old out.new) result }
{
    match fault {
        HistoryFault::NoMemory => Status::NoMemory,
        _ => write_made(unverified_text(alloc, fault), Status::Refused, out),
    }
}

/// Judges a history, and writes the line of its verdict.
fn write_verdict<O: Sink>(alloc: Global, stated: &StatedHistory, out: &mut O) -> Status
    requires { length stated.now.history.headers ≤ 268435456 }
    ensures { spec.Judges stated.now (seen O.taken O.faults out.old out.new) result }
{
    match verify(alloc, &stated.history, &stated.before, stated.first) {
        Ok(verified) => write_made(verified_text(alloc, &verified), Status::Done, out),
        Err(fault) => write_fault(alloc, fault, out),
    }
}

/// Judges the history that is the entire input, and writes the line of its verdict: `verified` with the number of its
/// ledgers and the hash of the last header, or `refused` with its first fault.
pub fn verify_history<I: Source, O: Sink>(alloc: Global, input: &mut I, out: &mut O) -> Status
    ensures { Verifies (seen I.left I.faults input.old input.new)
        (seen O.taken O.faults out.old out.new) result }
{
    match read_history(alloc, input) {
        Ok(stated) => write_verdict(alloc, &stated, out),
        Err(end) => end,
    }
}
