//! How records are closed while readers read beside the closing thread.

ghost use Rattle.std.specs.Prelude.{◌≡◌, ◌≤◌, ◌^◌, ◌++◌, ◌∷◌, [], ℕ, List, All, length};
ghost use denote.Param.Send.{IsSend, IsSync};
ghost use Rattle.ledger_types.specs.declared.ids.AccountId.{AccountId};
ghost use Rattle.ledger_types.specs.declared.key.LedgerKey.TheVariants as key;
ghost use Rattle.run_outcome.specs.run_streams.Seen.{Seen, seen};
ghost use Rattle.run_outcome.specs.close_rules.State.{ClosingState};
ghost use Rattle.reports.specs.Gathering.{RunPosition, Stopped};
ghost use Rattle.ledger_readers.specs.Published.{published, reader_count};
ghost use Rattle.watch_run.specs.Watching as spec;

use crate::asked::Asked;
use crate::lines::reader_texts;
use crate::publishing::Publishing;
use crate::reading::read_beside;
use ledger_close::{Ledger, View};
use ledger_readers::{EmptyList, LedgerReader, Publication, Publisher, Read, last_reads, make};
use ledger_types::{AccountId, LedgerEntry, LedgerKey};
use outside::{Gate, Sink, Source, Steps};
use reports::{Gather, Stop, gather_all, write_last, write_refusal};
use run_outcome::Status;
use std::alloc::Global;
use std::marker::PhantomData;
use std::sync::Wait;
use std::sync::atomic::{AtomicBool, Ordering};
use std::sync::ledger::Ledger as Count;
use std::thread::{Threads, join_mut};

/// Closes a ledger for each record, and gathers it, in this thread, while each reader reads in a thread of its own.
fn close_beside<
    R: Threads + Wait + Sync,
    J: Publication + Send + Sync,
    P: Gather,
    G: Gate,
    I: Source,
    L: Count,
>(
    rt: &R,
    alloc: Global,
    gate: &G,
    account: AccountId,
    refused: &AtomicBool,
    readers: &mut [LedgerReader<View, J>],
    gathered: &mut P,
    ledger: &mut Ledger,
    start: u128,
    input: &mut I,
    ahead: &mut Vec<u8>,
    steps: &mut Steps<L>,
) -> Stop
    requires few { length readers.old ≤ 4 }
    requires offset { start ≤ 2 ^ 64 }
    requires nothing { P.gathers gathered.old ledger.old.state [] }
    requires small { P.kind.AreSmall [] }
    ensures count { length readers.new ≡ length readers.old }
    ensures stopped { Stopped P.kind (P.gathers gathered.new)
        (record { state = ledger.old.state; at = start; ahead = ahead.old.items }) ledger.new.state
        (seen I.left I.faults input.old input.new) result }
{
    join_mut(
        rt,
        &mut ||
            requires { IsSync R.row × IsSync G.row × IsSend J.row × IsSync J.row × (length readers.now ≤ 4) }
            ensures { length readers.exit.now ≡ length readers.entry.now }
        { read_beside(rt, gate, account, refused, readers) },
        &mut || -> Stop
            requires offset { start ≤ 2 ^ 64 }
            requires nothing { P.gathers gathered.now ledger.now.state [] }
            requires small { P.kind.AreSmall [] }
            ensures { Stopped P.kind (P.gathers gathered.exit.now)
                (record { state = ledger.entry.now.state; at = start; ahead = ahead.entry.now.items })
                ledger.exit.now.state (seen I.left I.faults input.entry.now input.exit.now) result }
        { gather_all(alloc, ledger, start, input, ahead, gathered, steps) },
    )
    .1
}

/// Writes the lines of the readers at the end of the input, or the line of the record that is refused.
fn finish<O: Sink>(
    alloc: Global,
    ledger: &Ledger,
    reads: &[Read<LedgerEntry>],
    stop: Stop,
    out: &mut O,
) -> Status
    requires { length reads.now ≤ 4 }
    ensures { (id : AccountId) (states : List ClosingState) (p : RunPosition) (input : Seen)
        → spec.StopsWatch (length reads.now) id states p ledger.now.state input stop
        → All (λ r. spec.IsReadOfLast states (key.Account id) r.number r.seq r.entry) reads.now
        → spec.EndsWatch (spec.IsWatchRun (length reads.now) id p) input
        (seen O.taken O.faults out.old out.new) result }
{
    match stop {
        Stop::AtEnd => match reader_texts(alloc, reads) {
            Ok(text) => write_last(text.as_slice(), Status::Done, out),
            Err(_) => Status::NoMemory,
        },
        Stop::Refused(fault) => write_refusal(alloc, ledger, fault, out),
        // No close is too large for it.
        Stop::Ended(Status::TooLarge) => Status::NoMemory,
        Stop::Ended(end) => end,
    }
}

/// Closes a ledger for each record while readers read, and writes what each of them reads of the last ledger. Where a
/// read or what is published finds no memory, that is the end, at the next close at the latest.
pub(crate) fn watch_records<
    R: Threads + Wait + Sync,
    J: Publication + Send + Sync,
    W: Asked,
    I: Source,
    O: Sink,
    G: Gate,
    L: Count,
>(
    rt: &R,
    alloc: Global,
    list: EmptyList<View>,
    account: AccountId,
    readers: u32,
    ledger: &mut Ledger,
    start: u128,
    input: &mut I,
    ahead: &mut Vec<u8>,
    out: &mut O,
    gate: &G,
    steps: &mut Steps<L>,
) -> Status
    requires publication { list ≡ J.book }
    requires account { account ≡ W.account }
    requires readers { readers ≡ W.readers }
    requires some { 1 ≤ readers }
    requires few { readers ≤ 4 }
    requires offset { start ≤ 2 ^ 64 }
    ensures { spec.EndsWatch (spec.IsWatchRun readers account
        (record { state = ledger.old.state; at = start; ahead = ahead.old.items }))
        (seen I.left I.faults input.old input.new) (seen O.taken O.faults out.old out.new) result }
{
    let Ok(view) = ledger.view() else {
        return Status::NoMemory;
    };
    let Ok((publisher, mut made)) = make::<View, J>(alloc, list, view, readers) else {
        return Status::NoMemory;
    };
    let key = LedgerKey::Account {
        account_id: account,
    };
    let refused = AtomicBool::new(false);
    let mut publishing: Publishing<'_, R, Publisher<View, J>, W> = Publishing {
        rt,
        publisher,
        refused: &refused,
        of: PhantomData,
    };
    let stop = close_beside(
        rt,
        alloc,
        gate,
        account,
        &refused,
        made.as_mut_slice(),
        &mut publishing,
        ledger,
        start,
        input,
        ahead,
        steps,
    );
    let Publishing {
        rt: _,
        publisher,
        refused: _,
        of: _,
    } = publishing;
    // The publisher is ended here, whatever else happens.
    let reads = last_reads(rt, alloc, publisher, made, &key);
    if refused.load(Ordering::SeqCst) {
        return Status::NoMemory;
    }
    match reads {
        Ok(reads) => finish(alloc, ledger, reads.as_slice(), stop, out),
        Err(_) => Status::NoMemory,
    }
}
