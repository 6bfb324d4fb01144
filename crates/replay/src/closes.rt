//! The loop over the records of a run: each is read, prepared, kept, installed and written.

ghost use Rattle.std.specs.Prelude.{◌≡◌, ◌≤◌, ◌+◌, ◌*◌, ◌^◌, ℕ, List, Ok, length, IsNone};
ghost use Rattle.xdr_core.specs.Format.{IsBytes};
ghost use Rattle.stored_outcome.specs.run_streams.Seen.{seen};
ghost use Rattle.stored_outcome.specs.run_streams.SeenVolume.{seen_volume};
ghost use Rattle.record_stream.specs.Measured.{record_end};
ghost use Rattle.stored_outcome.specs.close_rules.Close.{IsClose};
ghost use Rattle.worker_merges.specs.ledger_close.States.{close_of};
ghost use Rattle.replay.specs.Warming.{IsWarmedAfter};
ghost use Rattle.replay.specs.Following.{Refuses, EndsAt};
ghost use Rattle.replay.specs.Keeping.{IsGoing, DidWrite, DidClose, DidPass, DidTurn, DidFollow};

use crate::crew::Crew;
use crate::keeper::{KeepFault, Keeper};
use crate::warming::{batch_keys, warm_keys};
use outside::{Sink, Source, Steps, Volume, write_all};
use record_stream::{PieceFault, RecordLength, read_piece, without_prefix};
use reports::{prefix_record, write_end, write_refusal};
use run_text::closed_text;
use std::alloc::Global;
use std::sync::ledger::Ledger as Count;
use stored_outcome::close_rules::LAST_SEQ;
use stored_outcome::run_outcome::Status;
use worker_merges::ledger_close::{CloseFault, Ledger, Prepared};

/// A ledger, and what keeps the records that close it.
#[derive(Drop)]
pub(crate) struct Closing<K: Keeper> {
    pub(crate) ledger: Ledger,
    pub(crate) keeper: K,
}

/// The records that a run has ahead of it, but for those that are still in the source.
#[derive(Drop)]
pub(crate) struct Records {
    /// The offset in the input of what is ahead.
    pub(crate) at: u128,
    pub(crate) ahead: Vec<u8>,
}

/// The lines of a close are written, and then what is due after them is done.
fn write_close<K: Keeper, V: Volume, O: Sink>(
    alloc: Global,
    ledger: &Ledger,
    keeper: &mut K,
    vol: &mut V,
    text: &[u8],
    out: &mut O,
) -> Option<Status>
    requires { IsGoing K.stores (K.works keeper.old) V.reports (K.keeps keeper.old) (V.disk vol.old) ledger.now.state }
    ensures { DidWrite K.stores ledger.now.state text.now (seen O.taken O.faults out.old out.new)
        (seen_volume V.reports V.disk V.faults vol.old vol.new)
        (IsGoing K.stores (K.works keeper.new) V.reports (K.keeps keeper.new) (V.disk vol.new) ledger.now.state)
        result }
{
    match write_all(out, text) {
        Ok(()) => {}
        Err(_) => return Some(Status::WriteFault),
    }
    match keeper.settle(alloc, vol, ledger) {
        Ok(()) => None,
        Err(KeepFault::DiskFault) => Some(Status::DiskFault),
        Err(KeepFault::NoMemory) => Some(Status::NoMemory),
    }
}

/// A close is kept, the ledger takes it, its lines are written, and the pages of the entries that it made or changed
/// are taken. All memory that the record takes, but for these pages, is taken before it is kept.
fn take_close<C: Crew, K: Keeper, V: Volume, O: Sink>(
    alloc: Global,
    crew: &C,
    side: &mut C::Side,
    closing: &mut Closing<K>,
    vol: &mut V,
    bytes: &[u8],
    prepared: Prepared,
    out: &mut O,
) -> Option<Status>
    requires short { length bytes.now ≤ 16777216 }
    requires closes { IsClose closing.old.ledger.state bytes.now (Ok (close_of prepared)) }
    requires crew { C.has crew.now side.old }
    requires going { IsGoing K.stores (K.works closing.old.keeper) V.reports (K.keeps closing.old.keeper)
        (V.disk vol.old) closing.old.ledger.state }
    ensures did { DidClose K.stores closing.old.ledger.state bytes.now closing.new.ledger.state
        (seen O.taken O.faults out.old out.new) (seen_volume V.reports V.disk V.faults vol.old vol.new)
        (IsGoing K.stores (K.works closing.new.keeper) V.reports (K.keeps closing.new.keeper) (V.disk vol.new)
        closing.new.ledger.state) result }
    ensures warmed { IsNone result → IsWarmedAfter prepared closing.old.ledger.caches closing.new.ledger.caches }
    ensures crew { C.has crew.now side.new }
{
    let pairs = prepared.results().results.as_slice();
    let Ok(text) = closed_text(alloc, prepared.header(), &prepared.header_hash(), pairs) else {
        return Some(Status::NoMemory);
    };
    let Ok(keys) = batch_keys(alloc, prepared.batch()) else {
        return Some(Status::NoMemory);
    };
    let Ok(piece) = closing.keeper.hold(alloc, bytes) else {
        return Some(Status::NoMemory);
    };
    match closing.keeper.keep(vol, piece) {
        Ok(()) => {}
        Err(_) => return Some(Status::DiskFault),
    }
    closing.ledger.install(prepared);
    crew.post_due(side, &mut closing.ledger);
    let text = text.as_slice();
    let ended = write_close(alloc, &closing.ledger, &mut closing.keeper, vol, text, out);
    warm_keys(&mut closing.ledger, keys.as_slice());
    ended
}

/// Ends a run with a record that is refused, or where memory was.
pub(crate) fn refuse<O: Sink>(
    alloc: Global,
    ledger: &Ledger,
    fault: CloseFault,
    out: &mut O,
) -> Status
    ensures refuses { Refuses ledger.now.state.header (seen O.taken O.faults out.old out.new) fault result }
    ensures later { O.faults out.old ≤ O.faults out.new }
{
    match fault {
        CloseFault::NoMemory => Status::NoMemory,
        _ => write_refusal(alloc, ledger, fault, out),
    }
}

/// A record closes the ledger, or ends the run.
fn close_record<C: Crew, K: Keeper, V: Volume, O: Sink, L: Count>(
    alloc: Global,
    crew: &C,
    side: &mut C::Side,
    closing: &mut Closing<K>,
    vol: &mut V,
    text: &[u8],
    out: &mut O,
    steps: &mut Steps<L>,
) -> Option<Status>
    requires short { length text.now ≤ 16777216 }
    requires crew { C.has crew.now side.old }
    requires going { IsGoing K.stores (K.works closing.old.keeper) V.reports (K.keeps closing.old.keeper)
        (V.disk vol.old) closing.old.ledger.state }
    ensures did { DidClose K.stores closing.old.ledger.state text.now closing.new.ledger.state
        (seen O.taken O.faults out.old out.new) (seen_volume V.reports V.disk V.faults vol.old vol.new)
        (IsGoing K.stores (K.works closing.new.keeper) V.reports (K.keeps closing.new.keeper) (V.disk vol.new)
        closing.new.ledger.state) result }
    ensures crew { C.has crew.now side.new }
{
    crew.adopt(side, &mut closing.ledger);
    match closing.ledger.prepare(text, steps) {
        Ok(prepared) => take_close(alloc, crew, side, closing, vol, text, prepared, out),
        Err(fault) => Some(refuse(alloc, &closing.ledger, fault, out)),
    }
}

/// The record at the start of what is ahead, of so many bytes, closes the ledger and is taken away, or ends the run.
fn pass_record<C: Crew, K: Keeper, V: Volume, O: Sink, L: Count>(
    alloc: Global,
    crew: &C,
    side: &mut C::Side,
    closing: &mut Closing<K>,
    vol: &mut V,
    size: usize,
    ahead: &mut Vec<u8>,
    out: &mut O,
    steps: &mut Steps<L>,
) -> Option<Status>
    requires size { record_end ahead.old.items ≡ Ok size }
    requires crew { C.has crew.now side.old }
    requires going { IsGoing K.stores (K.works closing.old.keeper) V.reports (K.keeps closing.old.keeper)
        (V.disk vol.old) closing.old.ledger.state }
    ensures did { DidPass K.stores closing.old.ledger.state ahead.old.items size closing.new.ledger.state
        ahead.new.items (seen O.taken O.faults out.old out.new)
        (seen_volume V.reports V.disk V.faults vol.old vol.new)
        (IsGoing K.stores (K.works closing.new.keeper) V.reports (K.keeps closing.new.keeper) (V.disk vol.new)
        closing.new.ledger.state) result }
    ensures crew { C.has crew.now side.new }
{
    let record = prefix_record(ahead.as_slice(), size);
    let Ok(rest) = without_prefix(alloc, ahead.as_slice(), size) else {
        return Some(Status::NoMemory);
    };
    if let Some(end) = close_record(alloc, crew, side, closing, vol, record, out, steps) {
        return Some(end);
    }
    *ahead = rest;
    None
}

/// Ends a run where no record is ahead: at the end of the input all is done.
fn stop<O: Sink>(
    alloc: Global,
    ledger: &Ledger,
    at: u128,
    ahead: &[u8],
    fault: PieceFault,
    out: &mut O,
) -> Status
    requires { at ≤ 2 ^ 127 }
    ensures ends { EndsAt ledger.now.state at ahead.now (seen O.taken O.faults out.old out.new) fault result }
    ensures fits { IsBytes ahead.now }
{
    match fault {
        PieceFault::Xdr(_) if ahead.is_empty() => write_end(alloc, ledger, out),
        PieceFault::Xdr(fault) => Status::BadInput {
            at: at + fault.at as u128,
        },
        PieceFault::Failed => Status::ReadFault,
        PieceFault::NoMemory => Status::NoMemory,
    }
}

/// The next record closes the ledger, or ends the run.
fn turn<C: Crew, K: Keeper, V: Volume, I: Source, O: Sink, L: Count>(
    alloc: Global,
    crew: &C,
    side: &mut C::Side,
    closing: &mut Closing<K>,
    vol: &mut V,
    records: &mut Records,
    input: &mut I,
    out: &mut O,
    steps: &mut Steps<L>,
) -> Option<Status>
    requires offset { records.old.at ≤ (closing.old.ledger.state.header.ledger_seq + 1) * 2 ^ 64 }
    requires crew { C.has crew.now side.old }
    requires going { IsGoing K.stores (K.works closing.old.keeper) V.reports (K.keeps closing.old.keeper)
        (V.disk vol.old) closing.old.ledger.state }
    ensures did { DidTurn K.stores
        (record { state = closing.old.ledger.state; at = records.old.at; ahead = records.old.ahead.items })
        (record { state = closing.new.ledger.state; at = records.new.at; ahead = records.new.ahead.items })
        (seen I.left I.faults input.old input.new) (seen O.taken O.faults out.old out.new)
        (seen_volume V.reports V.disk V.faults vol.old vol.new)
        (IsGoing K.stores (K.works closing.new.keeper) V.reports (K.keeps closing.new.keeper) (V.disk vol.new)
        closing.new.ledger.state) result }
    ensures crew { C.has crew.now side.new }
{
    let is_low = closing.ledger.header().ledger_seq <= LAST_SEQ;
    prove!(is_low);
    match read_piece::<RecordLength, I>(input, &mut records.ahead) {
        Ok(size) => {
            let ahead = &mut records.ahead;
            let stopped = pass_record(alloc, crew, side, closing, vol, size, ahead, out, steps);
            records.at += size as u128;
            stopped
        }
        Err(fault) => {
            let ahead = records.ahead.as_slice();
            Some(stop(alloc, &closing.ledger, records.at, ahead, fault, out))
        }
    }
}

/// Closes a ledger for each record after it and has it kept, up to the end of the input or of the run.
pub(crate) fn follow<C: Crew, K: Keeper, V: Volume, I: Source, O: Sink, L: Count>(
    alloc: Global,
    crew: &C,
    side: &mut C::Side,
    closing: &mut Closing<K>,
    vol: &mut V,
    records: Records,
    input: &mut I,
    out: &mut O,
    steps: &mut Steps<L>,
) -> Status
    requires offset { records.at ≤ 2 ^ 64 }
    requires crew { C.has crew.now side.old }
    requires going { IsGoing K.stores (K.works closing.old.keeper) V.reports (K.keeps closing.old.keeper)
        (V.disk vol.old) closing.old.ledger.state }
    ensures did { DidFollow K.stores closing.old.ledger.state records.at records.ahead.items
        (seen I.left I.faults input.old input.new) (seen O.taken O.faults out.old out.new)
        (seen_volume V.reports V.disk V.faults vol.old vol.new) result }
    ensures crew { C.has crew.now side.new }
{
    let mut records = records;
    loop {
        match turn(
            alloc,
            crew,
            side,
            closing,
            vol,
            &mut records,
            input,
            out,
            steps,
        ) {
            Some(end) => return end,
            None => {}
        }
    }
}
