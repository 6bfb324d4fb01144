//! Whether a history is a chain.

ghost use Rattle.std.specs.Prelude.{◌≡◌, ◌≤◌, ◌<◌, ◌^◌, List, length, None};
ghost use Rattle.archive_files.specs.Chain as spec;
ghost use Rattle.archive_files.specs.Judging as judging;
ghost use Rattle.archive_files.specs.Screening.{AreScreened};
ghost use Rattle.archive_files.specs.Walk.{AreRising};
ghost use Rattle.archive_files.specs.declared.facts.RecordFact.{RecordFact as ARecordFact};

use crate::chain::walk;
use crate::facts::{HeaderFact, RecordFact};
use crate::history::{History, HistoryFault, Verified};
use crate::numbers::sorted_numbers;
use crate::record_kind::{ResultsRecords, SetRecords};
use crate::records::read_headers;
use crate::screening::{Screened, read_screened};
use ledger_types::Hash;
use std::alloc::Global;
use xdr_core::ReadFault;

/// Judges headers by the records of sets and of results, none of which is stray.
fn judge_headers(
    alloc: Global,
    headers: &[HeaderFact],
    sets: &[RecordFact],
    results: &[RecordFact],
    before: &Hash,
    first: u32,
) -> Result<Verified, HistoryFault>
    requires count { length headers.now < 2 ^ 32 }
    requires sets_rise { AreRising None sets.now }
    requires results_rise { AreRising None results.now }
    ensures { judging.AreHeadersJudged headers.now sets.now results.now before.now first result }
{
    match walk(alloc, headers, sets, results, before, first) {
        Err(fault) => Err(fault),
        Ok(last) => Ok(Verified {
            closes: headers.len() as u32,
            last,
        }),
    }
}

/// Judges what was read: first whether a record is stray, and then the headers.
fn judge(
    alloc: Global,
    headers: &[HeaderFact],
    sets: &Screened,
    results: &Screened,
    before: &Hash,
    first: u32,
) -> Result<Verified, HistoryFault>
    requires count { length headers.now < 2 ^ 32 }
    requires sets_rise { AreRising None sets.now.facts.items }
    requires results_rise { AreRising None results.now.facts.items }
    ensures { (all_sets all_results : List ARecordFact) → AreScreened headers.now all_sets sets.now
        → AreScreened headers.now all_results results.now
        → judging.AreJudged headers.now all_sets all_results before.now first result }
{
    match sets.stray {
        Some(at) => Err(HistoryFault::Stray { file: 1, at }),
        None => match results.stray {
            Some(at) => Err(HistoryFault::Stray { file: 2, at }),
            None => judge_headers(
                alloc,
                headers,
                sets.facts.as_slice(),
                results.facts.as_slice(),
                before,
                first,
            ),
        },
    }
}

/// The fault of a file that isn't read.
fn unread(file: u32, failure: ReadFault) -> HistoryFault
    ensures { result ≡ judging.unread file failure }
{
    match failure {
        ReadFault::NoMemory => HistoryFault::NoMemory,
        ReadFault::Xdr(fault) => HistoryFault::Xdr {
            file,
            at: fault.at,
            kind: fault.kind,
        },
    }
}

/// Judges a history: how many ledgers it has and the hash of the last, or its first fault. `before` is the hash of the
/// ledger before it, and `first` the number of its first ledger.
pub fn verify(
    alloc: Global,
    history: &History,
    before: &Hash,
    first: u32,
) -> Result<Verified, HistoryFault>
    requires { length history.now.headers ≤ 268435456 }
    ensures { spec.IsJudged history.now before.now first result }
{
    let headers = match read_headers(alloc, history.headers.as_slice()) {
        Err(failure) => return Err(unread(0, failure)),
        Ok(headers) => headers,
    };
    let numbers = sorted_numbers(alloc, headers.as_slice())?;
    let sets = match read_screened::<SetRecords>(
        alloc,
        numbers.as_slice(),
        history.sets.as_slice(),
    ) {
        Err(failure) => return Err(unread(1, failure)),
        Ok(sets) => sets,
    };
    let results = match read_screened::<ResultsRecords>(
        alloc,
        numbers.as_slice(),
        history.results.as_slice(),
    ) {
        Err(failure) => return Err(unread(2, failure)),
        Ok(results) => results,
    };
    judge(alloc, headers.as_slice(), &sets, &results, before, first)
}
