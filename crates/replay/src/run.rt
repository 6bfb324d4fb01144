//! The top call: one command over the words, the input, the outputs and the volume of the process.

ghost use Rattle.std.specs.Prelude.{◌≡◌, ◌≤◌, ℕ, List};
ghost use Rattle.stored_outcome.specs.run_streams.Seen.{seen};
ghost use Rattle.stored_outcome.specs.run_streams.SeenVolume.{seen_volume};
ghost use Rattle.stored_outcome.specs.run_outcome.Run.{IsReported, DidCatchUp};
ghost use Rattle.stored_outcome.specs.run_outcome.Statuses.{status_code};
ghost use Rattle.stored_outcome.specs.run_outcome.declared.status.Status.{Status};
ghost use Rattle.stored_outcome.specs.run_outcome.declared.status.Status.TheVariants as status;
ghost use Rattle.command_words.specs.Words.{words_of, Parses};
ghost use Rattle.command_words.specs.Commands.{command_at};
ghost use Rattle.stored_outcome.specs.StoredRun.{DidRun};
ghost use Rattle.stored_outcome.specs.Init.{DidInit};
ghost use Rattle.stored_outcome.specs.Show.{DidShow};
ghost use Rattle.stored_outcome.specs.Sample.{DidSample};
ghost use Rattle.stored_outcome.specs.Program.{Ran, RanAs};

use crate::beside::run_beside;
use crate::catchup::catch_up;
use crate::files::write_file;
use crate::init::make;
use crate::path::path;
use crate::sample::sample;
use crate::show::show;
use crate::stored_run::run_stored;
use crate::verify::verify_reported;
use command_words::{Command, read_command};
use outside::{Gate, Sink, Source, Steps, Volume};
use reports::{ChangeRecords, StatedHistory, report, report_no_memory, report_usage};
use std::alloc::Global;
use std::sync::Wait;
use std::sync::ledger::Ledger as Count;
use std::thread::Threads;
use stored_outcome::run_outcome::Status;

/// Runs `catchup`, with its line on standard error.
fn catch_up_reported<I: Source, O: Sink, E: Sink, L: Count>(
    alloc: Global,
    network: &str,
    input: &mut I,
    out: &mut O,
    err: &mut E,
    steps: &mut Steps<L>,
) -> Status
    ensures { DidCatchUp network.now (seen I.left I.faults input.old input.new)
        (seen O.taken O.faults out.old out.new) (seen E.taken E.faults err.old err.new) result }
{
    let end = catch_up(alloc, network, input, out, steps);
    report(alloc, end, err)
}

/// Runs `init`, with its line on standard error.
fn init_reported<I: Source, E: Sink, V: Volume>(
    alloc: Global,
    network: &str,
    input: &mut I,
    err: &mut E,
    vol: &mut V,
) -> Status
    ensures { DidInit network.now (seen I.left I.faults input.old input.new)
        (seen E.taken E.faults err.old err.new) (seen_volume V.reports V.disk V.faults vol.old vol.new) result }
{
    let end = make(alloc, network, input, vol);
    report(alloc, end, err)
}

/// Runs `show`, with its line on standard error.
fn show_reported<O: Sink, E: Sink, V: Volume, L: Count>(
    alloc: Global,
    out: &mut O,
    err: &mut E,
    vol: &mut V,
    steps: &mut Steps<L>,
) -> Status
    ensures { DidShow (seen O.taken O.faults out.old out.new) (seen E.taken E.faults err.old err.new)
        (seen_volume V.reports V.disk V.faults vol.old vol.new) result }
{
    let end = show(alloc, out, vol, steps);
    report(alloc, end, err)
}

/// Runs `sample`, with its line on standard error.
fn sample_reported<O: Sink, E: Sink, L: Count>(
    alloc: Global,
    seed: u32,
    ledgers: u32,
    out: &mut O,
    err: &mut E,
    steps: &mut Steps<L>,
) -> Status
    requires { ledgers ≤ 20000 }
    ensures { DidSample seed ledgers (seen O.taken O.faults out.old out.new)
        (seen E.taken E.faults err.old err.new) result }
{
    let end = sample(alloc, seed, ledgers, out, steps);
    report(alloc, end, err)
}

/// Runs `run` without workers, with its line on standard error.
fn run_reported<I: Source, O: Sink, E: Sink, V: Volume, L: Count>(
    alloc: Global,
    input: &mut I,
    out: &mut O,
    err: &mut E,
    vol: &mut V,
    steps: &mut Steps<L>,
) -> Status
    ensures { DidRun (seen I.left I.faults input.old input.new) (seen O.taken O.faults out.old out.new)
        (seen E.taken E.faults err.old err.new) (seen_volume V.reports V.disk V.faults vol.old vol.new) result }
{
    let end = run_stored(alloc, input, out, vol, steps);
    report(alloc, end, err)
}

/// Runs `run` with 1 to 8 workers, with its line on standard error.
fn run_with_reported<
    R: Threads + Wait + Sync,
    I: Source,
    O: Sink,
    E: Sink,
    V: Volume,
    G: Gate,
    L: Count,
>(
    rt: &R,
    alloc: Global,
    workers: u32,
    input: &mut I,
    out: &mut O,
    err: &mut E,
    vol: &mut V,
    gate: &G,
    steps: &mut Steps<L>,
) -> Status
    requires some { 1 ≤ workers }
    requires few { workers ≤ 8 }
    ensures { DidRun (seen I.left I.faults input.old input.new) (seen O.taken O.faults out.old out.new)
        (seen E.taken E.faults err.old err.new) (seen_volume V.reports V.disk V.faults vol.old vol.new) result }
{
    let end = run_beside(rt, alloc, gate, workers, input, out, vol, steps);
    report(alloc, end, err)
}

/// Runs a command, with its line on standard error.
fn run_command<R: Threads + Wait + Sync, I: Source, O: Sink, E: Sink, V: Volume, G: Gate, L: Count>(
    rt: &R,
    alloc: Global,
    command: Command,
    input: &mut I,
    out: &mut O,
    err: &mut E,
    vol: &mut V,
    gate: &G,
    steps: &mut Steps<L>,
) -> Status
    requires { (words : List (List ℕ)) × Parses words (command_at command) }
    ensures { RanAs (command_at command.entry) (seen I.left I.faults input.old input.new)
        (seen O.taken O.faults out.old out.new) (seen E.taken E.faults err.old err.new)
        (seen_volume V.reports V.disk V.faults vol.old vol.new) result }
{
    match command {
        Command::Init { passphrase } => init_reported(alloc, passphrase, input, err, vol),
        Command::Run { workers: 0 } => run_reported(alloc, input, out, err, vol, steps),
        Command::Run { workers } => {
            run_with_reported(rt, alloc, workers, input, out, err, vol, gate, steps)
        }
        Command::CatchUp { passphrase } => {
            catch_up_reported(alloc, passphrase, input, out, err, steps)
        }
        Command::Show => show_reported(alloc, out, err, vol, steps),
        Command::Sample { seed, ledgers } => sample_reported(alloc, seed, ledgers, out, err, steps),
        Command::Verify => verify_reported(alloc, input, out, err),
        Command::Path => path(alloc, input, out, err, vol, steps),
        Command::History { passphrase } => {
            write_file::<StatedHistory, I, O, E, L>(alloc, passphrase, input, out, err, steps)
        }
        Command::Changes { passphrase } => {
            write_file::<ChangeRecords, I, O, E, L>(alloc, passphrase, input, out, err, steps)
        }
    }
}

/// Runs the command of the words, with its line on standard error.
fn run<R: Threads + Wait + Sync, I: Source, O: Sink, E: Sink, V: Volume, G: Gate, L: Count>(
    rt: &R,
    alloc: Global,
    words: &[String],
    input: &mut I,
    out: &mut O,
    err: &mut E,
    vol: &mut V,
    gate: &G,
    steps: &mut Steps<L>,
) -> Status
    ensures { Ran (words_of words.now) (seen I.left I.faults input.old input.new)
        (seen O.taken O.faults out.old out.new) (seen E.taken E.faults err.old err.new)
        (seen_volume V.reports V.disk V.faults vol.old vol.new) result }
{
    match read_command(alloc, words) {
        Ok(Some(command)) => run_command(rt, alloc, command, input, out, err, vol, gate, steps),
        Ok(None) => report_usage(err),
        Err(_) => report_no_memory(err),
    }
}

/// Runs the command of the words and answers the exit status of the process. `init` reads a start image, and makes a
/// store of it on the volume. `run` opens that store, closes a ledger for each record of the input, keeps the record,
/// and prints what it yielded; with workers, merges are made beside it, each after the gate. `catchup` does so for the
/// records after a start image, in memory alone; `history` writes the files of an archive of these closes, and
/// `changes` what they change of the entries. `verify` judges such files. `show` prints the ledger of the store, `path`
/// answers a query from it, and `sample` closes ledgers that are made from a number. It waits for its workers.
pub fn run_program<
    R: Threads + Wait + Sync,
    I: Source,
    O: Sink,
    E: Sink,
    V: Volume,
    G: Gate,
    L: Count,
>(
    rt: &R,
    alloc: Global,
    words: &[String],
    input: &mut I,
    out: &mut O,
    err: &mut E,
    vol: &mut V,
    gate: &G,
    steps: &mut Steps<L>,
) -> u8
    ensures { (end : Status) × ((result ≡ status_code end)
        × Ran (words_of words.now) (seen I.left I.faults input.old input.new)
        (seen O.taken O.faults out.old out.new) (seen E.taken E.faults err.old err.new)
        (seen_volume V.reports V.disk V.faults vol.old vol.new) end) }
{
    run(rt, alloc, words, input, out, err, vol, gate, steps).code()
}

/// Runs `catchup` on the network with this passphrase. It answers the exit status of the process.
pub fn do_catchup<I: Source, O: Sink, E: Sink, L: Count>(
    alloc: Global,
    network: &str,
    input: &mut I,
    out: &mut O,
    err: &mut E,
    steps: &mut Steps<L>,
) -> u8
    ensures { (end : Status) × ((result ≡ status_code end)
        × DidCatchUp network.now (seen I.left I.faults input.old input.new)
        (seen O.taken O.faults out.old out.new) (seen E.taken E.faults err.old err.new) end) }
{
    catch_up_reported(alloc, network, input, out, err, steps).code()
}

/// Runs `run` without workers: it opens the store that the volume keeps, closes a ledger for each record of the input,
/// keeps the record and prints what it yielded. It answers the exit status of the process.
pub fn do_run_alone<I: Source, O: Sink, E: Sink, V: Volume, L: Count>(
    alloc: Global,
    input: &mut I,
    out: &mut O,
    err: &mut E,
    vol: &mut V,
    steps: &mut Steps<L>,
) -> u8
    ensures { (end : Status) × ((result ≡ status_code end)
        × DidRun (seen I.left I.faults input.old input.new) (seen O.taken O.faults out.old out.new)
        (seen E.taken E.faults err.old err.new) (seen_volume V.reports V.disk V.faults vol.old vol.new) end) }
{
    run_reported(alloc, input, out, err, vol, steps).code()
}

/// Runs `run` with 1 to 8 workers. What is known of it is what is known of `do_run_alone`, whatever merges the workers
/// give. Where memory for them is refused, it ends before it reads. It waits for its workers, and answers the
/// exit status of the process.
pub fn do_run_with<
    R: Threads + Wait + Sync,
    I: Source,
    O: Sink,
    E: Sink,
    V: Volume,
    G: Gate,
    L: Count,
>(
    rt: &R,
    alloc: Global,
    workers: u32,
    input: &mut I,
    out: &mut O,
    err: &mut E,
    vol: &mut V,
    gate: &G,
    steps: &mut Steps<L>,
) -> u8
    requires some { 1 ≤ workers }
    requires few { workers ≤ 8 }
    ensures { (end : Status) × ((result ≡ status_code end)
        × DidRun (seen I.left I.faults input.old input.new) (seen O.taken O.faults out.old out.new)
        (seen E.taken E.faults err.old err.new) (seen_volume V.reports V.disk V.faults vol.old vol.new) end) }
{
    run_with_reported(rt, alloc, workers, input, out, err, vol, gate, steps).code()
}

/// Runs `init` on the network with this passphrase: it reads a start image, which is the entire input, and makes a
/// store of it on a volume that has none. It answers the exit status of the process.
pub fn do_init<I: Source, E: Sink, V: Volume>(
    alloc: Global,
    network: &str,
    input: &mut I,
    err: &mut E,
    vol: &mut V,
) -> u8
    ensures { (end : Status) × ((result ≡ status_code end)
        × DidInit network.now (seen I.left I.faults input.old input.new)
        (seen E.taken E.faults err.old err.new) (seen_volume V.reports V.disk V.faults vol.old vol.new) end) }
{
    init_reported(alloc, network, input, err, vol).code()
}

/// Runs `show`: it opens the store that the volume keeps, and prints its ledger, its epoch and records, its lumens and
/// how many entries it has. The volume stays as it is. It answers the exit status of the process.
pub fn do_show<O: Sink, E: Sink, V: Volume, L: Count>(
    alloc: Global,
    out: &mut O,
    err: &mut E,
    vol: &mut V,
    steps: &mut Steps<L>,
) -> u8
    ensures { (end : Status) × ((result ≡ status_code end)
        × DidShow (seen O.taken O.faults out.old out.new) (seen E.taken E.faults err.old err.new)
        (seen_volume V.reports V.disk V.faults vol.old vol.new) end) }
{
    show_reported(alloc, out, err, vol, steps).code()
}

/// Runs `sample`: it makes an image and 1 to 20000 records from a seed, closes their ledgers in memory alone, and
/// prints what they yield as one line. It answers the exit status of the process.
pub fn do_sample<O: Sink, E: Sink, L: Count>(
    alloc: Global,
    seed: u32,
    ledgers: u32,
    out: &mut O,
    err: &mut E,
    steps: &mut Steps<L>,
) -> u8
    requires some { 1 ≤ ledgers }
    requires few { ledgers ≤ 20000 }
    ensures { (end : Status) × ((result ≡ status_code end)
        × DidSample seed ledgers (seen O.taken O.faults out.old out.new)
        (seen E.taken E.faults err.old err.new) end) }
{
    sample_reported(alloc, seed, ledgers, out, err, steps).code()
}

/// Ends the program where memory was refused before its words were read: nothing else is read or written. It answers
/// the exit status of the process.
pub fn end_without_memory<E: Sink>(err: &mut E) -> u8
    ensures { (end : Status) × ((result ≡ status_code end)
        × IsReported status.NoMemory (seen E.taken E.faults err.old err.new) end) }
{
    report_no_memory(err).code()
}
