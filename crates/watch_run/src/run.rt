//! The top call: what the words ask, over the input and the outputs of the process.

ghost use Rattle.std.specs.Prelude.{◌≡◌, ◌≤◌};
ghost use Rattle.command_words.specs.Words.{words_of};
ghost use Rattle.ledger_types.specs.declared.ids.AccountId.{AccountId};
ghost use Rattle.run_outcome.specs.FileRun.{IsFileOutcome};
ghost use Rattle.run_outcome.specs.Statuses.{status_code};
ghost use Rattle.run_outcome.specs.WatchRun.{DidWatch, reader_text};
ghost use Rattle.run_outcome.specs.declared.status.Status.{Status};
ghost use Rattle.run_outcome.specs.run_streams.Seen.{seen};
ghost use Rattle.watch_run.specs.WatchProgram.{RanWatch};
ghost use Rattle.watch_run.specs.Watching as spec;

use crate::beside::watch_records;
use command_words::read_watch;
use ledger_readers::EmptyList;
use ledger_types::AccountId;
use outside::{Gate, Sink, Source, Steps};
use replay::{Started, start};
use reports::{report, report_no_memory, report_usage};
use run_outcome::Status;
use std::alloc::Global;
use std::marker::Brand;
use std::sync::Wait;
use std::sync::ledger::Ledger as Count;
use std::thread::Threads;

/// Starts from the image at the start of the input, and watches the ledgers of the records after it.
fn watch_started<R: Threads + Wait + Sync, I: Source, O: Sink, G: Gate, L: Count>(
    rt: &R,
    alloc: Global,
    network: &str,
    account: AccountId,
    readers: u32,
    input: &mut I,
    out: &mut O,
    gate: &G,
    steps: &mut Steps<L>,
) -> Status
    requires some { 1 ≤ readers }
    requires few { readers ≤ 4 }
    ensures { spec.EndsWatch (IsFileOutcome (reader_text readers account) network.now)
        (seen I.left I.faults input.old input.new) (seen O.taken O.faults out.old out.new) result }
{
    let mut ahead = Vec::new(alloc);
    match start(alloc, network, input, &mut ahead) {
        Ok(Started { mut ledger, at }) => {
            let list = EmptyList::new();
            watch_records::<R, Brand, Brand, I, O, G, L>(
                rt,
                alloc,
                list,
                account,
                readers,
                &mut ledger,
                at as u128,
                input,
                &mut ahead,
                out,
                gate,
                steps,
            )
        }
        Err(end) => end,
    }
}

/// Runs `watch`, with its line on standard error.
fn watch<R: Threads + Wait + Sync, I: Source, O: Sink, E: Sink, G: Gate, L: Count>(
    rt: &R,
    alloc: Global,
    network: &str,
    account: AccountId,
    readers: u32,
    input: &mut I,
    out: &mut O,
    err: &mut E,
    gate: &G,
    steps: &mut Steps<L>,
) -> Status
    requires some { 1 ≤ readers }
    requires few { readers ≤ 4 }
    ensures { DidWatch network.now readers account (seen I.left I.faults input.old input.new)
        (seen O.taken O.faults out.old out.new) (seen E.taken E.faults err.old err.new) result }
{
    let end = watch_started(
        rt, alloc, network, account, readers, input, out, gate, steps,
    );
    report(alloc, end, err)
}

/// Runs `watch` on the network with this passphrase: it closes a ledger in memory for each record after a start image,
/// while 1 to 4 readers read an account in threads of their own, and at the end of the input writes what each reads of
/// the last ledger. It waits for its readers, and answers the exit status of the process.
pub fn do_watch<R: Threads + Wait + Sync, I: Source, O: Sink, E: Sink, G: Gate, L: Count>(
    rt: &R,
    alloc: Global,
    network: &str,
    account: AccountId,
    readers: u32,
    input: &mut I,
    out: &mut O,
    err: &mut E,
    gate: &G,
    steps: &mut Steps<L>,
) -> u8
    requires some { 1 ≤ readers }
    requires few { readers ≤ 4 }
    ensures { (end : Status) × ((result ≡ status_code end)
        × DidWatch network.now readers account (seen I.left I.faults input.old input.new)
        (seen O.taken O.faults out.old out.new) (seen E.taken E.faults err.old err.new) end) }
{
    watch(
        rt, alloc, network, account, readers, input, out, err, gate, steps,
    )
    .code()
}

/// Runs what the words ask, with its line on standard error.
fn run<R: Threads + Wait + Sync, I: Source, O: Sink, E: Sink, G: Gate, L: Count>(
    rt: &R,
    alloc: Global,
    words: &[String],
    input: &mut I,
    out: &mut O,
    err: &mut E,
    gate: &G,
    steps: &mut Steps<L>,
) -> Status
    ensures { RanWatch (words_of words.now) (seen I.left I.faults input.old input.new)
        (seen O.taken O.faults out.old out.new) (seen E.taken E.faults err.old err.new) result }
{
    match read_watch(alloc, words) {
        Ok(Some(asked)) => watch(
            rt,
            alloc,
            asked.passphrase,
            AccountId(asked.account),
            asked.readers,
            input,
            out,
            err,
            gate,
            steps,
        ),
        Ok(None) => report_usage(err),
        Err(_) => report_no_memory(err),
    }
}

/// Runs the program `watch` over its words, its input and its outputs. The gate is passed by a reader before each of
/// its reads, with 0 and the number of the reader. It answers the exit status of the process.
pub fn run_watch<R: Threads + Wait + Sync, I: Source, O: Sink, E: Sink, G: Gate, L: Count>(
    rt: &R,
    alloc: Global,
    words: &[String],
    input: &mut I,
    out: &mut O,
    err: &mut E,
    gate: &G,
    steps: &mut Steps<L>,
) -> u8
    ensures { (end : Status) × ((result ≡ status_code end)
        × RanWatch (words_of words.now) (seen I.left I.faults input.old input.new)
        (seen O.taken O.faults out.old out.new) (seen E.taken E.faults err.old err.new) end) }
{
    run(rt, alloc, words, input, out, err, gate, steps).code()
}
