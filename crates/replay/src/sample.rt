//! The command `sample`, but for the line on standard error.

ghost use Rattle.std.specs.Prelude.{◌≡◌, ◌<◌, ◌≤◌, ◌+◌, ◌*◌, ◌^◌, ℕ, List, Ok, IfOk, MatchResult, length};
ghost use Rattle.stored_outcome.specs.run_streams.Seen.{seen};
ghost use Rattle.stored_outcome.specs.close_rules.Close.{IsClose};
ghost use Rattle.stored_outcome.specs.run_outcome.Lines.{sample_line, success_count as success_count_of};
ghost use Rattle.stored_outcome.specs.run_outcome.declared.status.Status.TheVariants as status;
ghost use Rattle.stored_outcome.specs.sample_ledger.Samples.{first_state, record_bytes as bytes_of};
ghost use Rattle.reports.specs.Ends.{Wrote};
ghost use Rattle.worker_merges.specs.ledger_close.States.{close_of};
ghost use Rattle.replay.specs.Sampling.{HasReached, Advances, Samples};

use crate::closes::refuse;
use crate::starting::judge;
use outside::{Sink, Steps};
use reports::write_last;
use run_text::{sample_text, success_count};
use sample_laws::{first_states_close, samples_close};
use std::alloc::{AllocError, Global};
use std::sync::ledger::Ledger as Count;
use stored_outcome::run_outcome::Status;
use stored_outcome::sample_ledger::{image, make_record, records_are_written};
use worker_merges::close_laws::images::images_are_one;
use worker_merges::ledger_close::{CloseFault, Ledger, Prepared};
use xdr_core::Builder;
use xdr_header::write_close_record;

/// The network of every sample.
const NETWORK: &str = "sample";

/// A ledger of a sample, how many transactions all of its ledgers have so far, and how many of these succeeded.
#[derive(Drop)]
struct Sampled {
    ledger: Ledger,
    transactions: u128,
    successes: u128,
}

/// The ledger from which the sample of a seed begins.
fn first_ledger(alloc: Global, seed: u32) -> Result<Ledger, Status>
    ensures { MatchResult result (λ ledger. ledger.state ≡ first_state seed) (λ end. end ≡ status.NoMemory) }
{
    first_states_close();
    images_are_one();
    let Ok(image) = image(alloc, seed) else {
        return Err(Status::NoMemory);
    };
    judge(NETWORK, image)
}

/// The sample of a seed before its first record.
fn begin(alloc: Global, seed: u32) -> Result<Sampled, Status>
    ensures { MatchResult result
        (λ sampled. HasReached seed 0 sampled.ledger.state sampled.transactions sampled.successes)
        (λ end. end ≡ status.NoMemory) }
{
    Ok(Sampled {
        ledger: first_ledger(alloc, seed)?,
        transactions: 0,
        successes: 0,
    })
}

/// The bytes of the record after the first `closed` ones.
fn record_bytes(
    alloc: Global,
    seed: u32,
    closed: u32,
    sampled: &Sampled,
) -> Result<Vec<u8>, AllocError>
    requires few { closed < 20000 }
    requires reached { HasReached seed closed sampled.now.ledger.state sampled.now.transactions sampled.now.successes }
    ensures are { IfOk result (λ bytes. bytes.items ≡ bytes_of seed (closed + 1) sampled.now.ledger.state) }
    ensures short { IfOk result (λ bytes. length bytes.items ≤ 16777216) }
{
    records_are_written();
    samples_close();
    let record = make_record(alloc, seed, closed + 1, sampled.ledger.header())?;
    let mut builder = Builder::new(alloc);
    write_close_record(&record, &mut builder)?;
    Ok(builder.finish())
}

/// The ledger takes a close, whose transactions are counted.
fn take_close(sampled: &mut Sampled, prepared: Prepared)
    requires few { (k : ℕ) × (k < 20000) × (sampled.old.transactions ≤ k * 2 ^ 64)
        × (sampled.old.successes ≤ k * 2 ^ 64) }
    requires closes { (bytes : List ℕ) × IsClose sampled.old.ledger.state bytes (Ok (close_of prepared))
        × (length bytes ≤ 16777216) }
    ensures state { sampled.new.ledger.state ≡ prepared.state }
    ensures transactions { sampled.new.transactions ≡ sampled.old.transactions + length prepared.results }
    ensures successes { sampled.new.successes ≡ sampled.old.successes + success_count_of prepared.results }
    ensures fits { length prepared.results < 2 ^ 64 }
    ensures success_fits { success_count_of prepared.results < 2 ^ 64 }
{
    let pairs = prepared.results().results.as_slice();
    sampled.transactions += pairs.len() as u128;
    sampled.successes += success_count(pairs) as u128;
    sampled.ledger.install(prepared);
}

/// The record after the first `closed` ones closes its ledger, or says why it doesn't.
fn close_next<L: Count>(
    alloc: Global,
    seed: u32,
    closed: u32,
    sampled: &mut Sampled,
    steps: &mut Steps<L>,
) -> Result<(), CloseFault>
    requires few { closed < 20000 }
    requires reached { HasReached seed closed sampled.old.ledger.state sampled.old.transactions sampled.old.successes }
    ensures { Advances seed closed sampled.old.ledger.state sampled.new.ledger.state sampled.new.transactions
        sampled.new.successes result }
{
    let Ok(bytes) = record_bytes(alloc, seed, closed, sampled) else {
        return Err(CloseFault::NoMemory);
    };
    match sampled.ledger.prepare(bytes.as_slice(), steps) {
        Ok(prepared) => {
            take_close(sampled, prepared);
            Ok(())
        }
        Err(fault) => Err(fault),
    }
}

/// Writes the line of a sample of so many ledgers.
fn write_sample<O: Sink>(
    alloc: Global,
    seed: u32,
    ledgers: u32,
    sampled: &Sampled,
    out: &mut O,
) -> Status
    ensures { Wrote (seen O.taken O.faults out.old out.new)
        (sample_line seed ledgers sampled.now.ledger.state.header sampled.now.transactions sampled.now.successes)
        status.Done result }
{
    let ledger = &sampled.ledger;
    match sample_text(
        alloc,
        seed,
        ledgers,
        ledger.header(),
        &ledger.header_hash(),
        sampled.transactions,
        sampled.successes,
    ) {
        Ok(text) => write_last(text.as_slice(), Status::Done, out),
        Err(_) => Status::NoMemory,
    }
}

/// Closes 1 to 20000 ledgers of the sample of a seed, in memory alone, and writes what they yield as one line.
pub(crate) fn sample<O: Sink, L: Count>(
    alloc: Global,
    seed: u32,
    ledgers: u32,
    out: &mut O,
    steps: &mut Steps<L>,
) -> Status
    requires { ledgers ≤ 20000 }
    ensures { Samples seed ledgers (seen O.taken O.faults out.old out.new) result }
{
    let mut sampled = match begin(alloc, seed) {
        Ok(sampled) => sampled,
        Err(end) => return end,
    };
    for closed in 0..ledgers {
        match close_next(alloc, seed, closed, &mut sampled, steps) {
            Ok(()) => {}
            Err(fault) => return refuse(alloc, &sampled.ledger, fault, out),
        }
    }
    write_sample(alloc, seed, ledgers, &sampled, out)
}
