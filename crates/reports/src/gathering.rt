//! The loop over the records after a start image, of whose closes something is gathered. Nothing is written before the
//! end of the input.

ghost use Rattle.std.specs.Prelude.{◌≡◌, ◌≤◌, ◌+◌, ◌*◌, ◌^◌, [], Ok, length, drop, IsNone};
ghost use Rattle.xdr_core.specs.Format.{IsBytes};
ghost use Rattle.record_stream.specs.Measured.{record_end};
ghost use Rattle.run_outcome.specs.run_streams.Seen.{seen};
ghost use Rattle.reports.specs.Gathering as spec;

use crate::gather::Gather;
use crate::records::prefix_record;
use ledger_close::{CloseFault, Ledger};
use outside::{Source, Steps};
use record_stream::{PieceFault, RecordLength, read_piece, without_prefix};
use run_outcome::Status;
use run_outcome::close_rules::LAST_SEQ;
use std::alloc::Global;
use std::sync::ledger::Ledger as Count;

/// Why no more closes are gathered.
#[derive(Clone, Copy)]
pub enum Stop {
    /// The input is at its end.
    AtEnd,
    /// A record is refused.
    Refused(CloseFault),
    /// The run ends so.
    Ended(Status),
}

/// A record closes the ledger, which takes the close that is gathered; or it stops the run.
fn close_record<G: Gather, L: Count>(
    alloc: Global,
    ledger: &mut Ledger,
    text: &[u8],
    gathered: &mut G,
    steps: &mut Steps<L>,
) -> Option<Stop>
    requires { length text.now ≤ 16777216 }
    ensures { spec.Closes G.kind (G.gathers gathered.old) (G.gathers gathered.new) ledger.old.state text.now
        ledger.new.state result }
{
    let close = match ledger.prepare_in_detail(text, steps) {
        Ok(close) => close,
        Err(CloseFault::NoMemory) => return Some(Stop::Ended(Status::NoMemory)),
        Err(fault) => return Some(Stop::Refused(fault)),
    };
    match gathered.gather(alloc, ledger, close) {
        Ok(()) => None,
        Err(end) => Some(Stop::Ended(end)),
    }
}

/// The record at the start of what is ahead closes the ledger and is taken away, or stops the run.
fn pass_record<G: Gather, L: Count>(
    alloc: Global,
    ledger: &mut Ledger,
    end: usize,
    ahead: &mut Vec<u8>,
    gathered: &mut G,
    steps: &mut Steps<L>,
) -> Option<Stop>
    requires { record_end ahead.old.items ≡ Ok end }
    ensures passes { spec.Passes G.kind (G.gathers gathered.old) (G.gathers gathered.new) ledger.old.state
        ahead.old.items end ledger.new.state result }
    ensures fits { IsBytes ahead.old.items }
    ensures rest { IsNone result → ahead.new.items ≡ drop end ahead.old.items }
{
    let record = prefix_record(ahead.as_slice(), end);
    let Ok(rest) = without_prefix(alloc, ahead.as_slice(), end) else {
        return Some(Stop::Ended(Status::NoMemory));
    };
    if let Some(stop) = close_record(alloc, ledger, record, gathered, steps) {
        return Some(stop);
    }
    *ahead = rest;
    None
}

/// Why a run stops where no record is ahead.
fn stop_of(at: u128, ahead: &[u8], fault: PieceFault) -> Stop
    requires { at ≤ 2 ^ 127 }
    ensures stops { spec.IsUnread at ahead.now fault result }
    ensures fits { IsBytes ahead.now }
{
    match fault {
        PieceFault::Xdr(_) if ahead.is_empty() => Stop::AtEnd,
        PieceFault::Xdr(fault) => Stop::Ended(Status::BadInput {
            at: at + fault.at as u128,
        }),
        PieceFault::Failed => Stop::Ended(Status::ReadFault),
        PieceFault::NoMemory => Stop::Ended(Status::NoMemory),
    }
}

/// The close of the next record is gathered, or the run stops.
fn turn<G: Gather, I: Source, L: Count>(
    alloc: Global,
    ledger: &mut Ledger,
    at: &mut u128,
    input: &mut I,
    ahead: &mut Vec<u8>,
    gathered: &mut G,
    steps: &mut Steps<L>,
) -> Option<Stop>
    requires { at.old ≤ (ledger.old.state.header.ledger_seq + 1) * 2 ^ 64 }
    ensures turned { spec.Turned G.kind (G.gathers gathered.old) (G.gathers gathered.new)
        (record { state = ledger.old.state; at = at.old; ahead = ahead.old.items })
        (record { state = ledger.new.state; at = at.new; ahead = ahead.new.items })
        (seen I.left I.faults input.old input.new) result }
    ensures later { I.faults input.old ≤ I.faults input.new }
{
    let is_low = ledger.header().ledger_seq <= LAST_SEQ;
    prove!(is_low);
    match read_piece::<RecordLength, I>(input, ahead) {
        Ok(end) => {
            let stopped = pass_record(alloc, ledger, end, ahead, gathered, steps);
            *at += end as u128;
            stopped
        }
        Err(fault) => Some(stop_of(*at, ahead.as_slice(), fault)),
    }
}

/// Closes a ledger for each record after it and gathers the closes, up to the end of the input or of the run.
pub fn gather_all<G: Gather, I: Source, L: Count>(
    alloc: Global,
    ledger: &mut Ledger,
    start: u128,
    input: &mut I,
    ahead: &mut Vec<u8>,
    gathered: &mut G,
    steps: &mut Steps<L>,
) -> Stop
    requires offset { start ≤ 2 ^ 64 }
    requires nothing { G.gathers gathered.old ledger.old.state [] }
    requires small { G.kind.AreSmall [] }
    ensures { spec.Stopped G.kind (G.gathers gathered.new)
        (record { state = ledger.old.state; at = start; ahead = ahead.old.items }) ledger.new.state
        (seen I.left I.faults input.old input.new) result }
{
    let mut at = start;
    loop {
        match turn(alloc, ledger, &mut at, input, ahead, gathered, steps) {
            Some(stop) => return stop,
            None => {}
        }
    }
}
