//! The walk over the headers of a history.

ghost use Rattle.std.specs.Prelude.{◌≡◌, ◌↔◌, List, IsTrue, IfOk, None};
ghost use Rattle.archive_files.specs.Chain as spec;
ghost use Rattle.archive_files.specs.Walk as walk;
ghost use Rattle.archive_files.specs.declared.facts.RecordFact.{RecordFact as ARecordFact};

use crate::facts::{HeaderFact, RecordFact};
use crate::history::HistoryFault;
use hash_ids::hash;
use item_list::ItemList;
use ledger_types::Hash;
use op_types::TransactionResultSet;
use std::alloc::{AllocError, Global};
use value_hashes::results_hash;

/// Records that are ahead of a walk in the order of their numbers.
#[derive(Clone, Copy)]
struct Ahead<'a> {
    rest: &'a [RecordFact],
}

/// The hash of the set without transactions after the ledger with a hash: that of the hash alone.
#[tactic(auto, using(crate::proofs::EmptySet::hashes_previous))]
fn empty_set_hash(previous: &Hash) -> Hash
    ensures { result ≡ spec.empty_set_hash previous.now }
{
    hash(previous.0.as_slice())
}

/// The hash of no results.
#[tactic(auto, unfolding(xdr_results::specs::Results::transaction_result_set, xdr_core::specs::Combinators::list))]
fn no_results_hash(alloc: Global) -> Result<Hash, AllocError>
    ensures { IfOk result (λ hash. hash ≡ spec.no_results_hash) }
{
    let results = TransactionResultSet {
        results: ItemList::new(alloc),
    };
    results_hash(alloc, &results)
}

/// Whether two hashes are the same.
fn are_same(one: &Hash, other: &Hash) -> bool
    ensures { IsTrue result ↔ (one.now ≡ other.now) }
{
    *one == *other
}

/// Tests a header: its number, its own hash, and the hash of the header before it.
fn test_link(header: &HeaderFact, want: u64, last: &Hash) -> Result<(), HistoryFault>
    ensures { walk.IsLinkTested want last.now header.now result }
{
    if u64::from(header.seq) != want {
        return Err(HistoryFault::Seq {
            at: header.at,
            want,
            given: header.seq,
        });
    }
    if !are_same(&header.stated, &header.own) {
        return Err(HistoryFault::HeaderHash { at: header.at });
    }
    if !are_same(&header.previous, last) {
        return Err(HistoryFault::Link { at: header.at });
    }
    Ok(())
}

/// Tests a header's hashes of its set and its results against those of the records.
fn test_contents(header: &HeaderFact, set: &Hash, results: &Hash) -> Result<(), HistoryFault>
    ensures { walk.AreContentsTested set.now results.now header.now result }
{
    if !are_same(&header.set, set) {
        return Err(HistoryFault::SetHash { at: header.at });
    }
    if !are_same(&header.results, results) {
        return Err(HistoryFault::ResultHash { at: header.at });
    }
    Ok(())
}

/// A hash that was found, or else another one.
fn or_else(found: Option<Hash>, missing: Hash) -> Hash
    ensures { result ≡ spec.or_else found missing }
{
    match found {
        None => missing,
        Some(hash) => hash,
    }
}

/// Tests a header. What is ahead of the sets and of the results goes on after it.
fn test_header(
    header: &HeaderFact,
    want: u64,
    last: &Hash,
    missing: &Hash,
    sets: &mut Ahead<'_>,
    results: &mut Ahead<'_>,
) -> Result<(), HistoryFault>
    requires sets_rise { walk.AreRising None sets.old.rest.now }
    requires results_rise { walk.AreRising None results.old.rest.now }
    requires missing { missing.now ≡ spec.no_results_hash }
    ensures { (all_sets all_results : List ARecordFact) → walk.IsAheadFor want all_sets sets.old.rest.now
        → walk.IsAheadFor want all_results results.old.rest.now
        → walk.IsTested all_sets all_results want last.now header.now sets.new.rest.now results.new.rest.now result }
{
    match test_link(header, want, last) {
        Err(fault) => Err(fault),
        Ok(()) => {
            let set = or_else(sets.take(header.seq), empty_set_hash(&header.previous));
            let of_results = or_else(results.take(header.seq), *missing);
            test_contents(header, &set, &of_results)
        }
    }
}

/// Walks over all headers, from a number and the hash before them, and answers the last one's hash.
pub(crate) fn walk(
    alloc: Global,
    headers: &[HeaderFact],
    sets: &[RecordFact],
    results: &[RecordFact],
    before: &Hash,
    first: u32,
) -> Result<Hash, HistoryFault>
    requires sets_rise { walk.AreRising None sets.now }
    requires results_rise { walk.AreRising None results.now }
    ensures { walk.IsWalked sets.now results.now first before.now headers.now result }
{
    let missing = no_results_hash(alloc)?;
    let mut sets_ahead = Ahead::new(sets);
    let mut results_ahead = Ahead::new(results);
    let mut want = u64::from(first);
    let mut last = *before;
    for header in headers {
        match test_header(
            header,
            want,
            &last,
            &missing,
            &mut sets_ahead,
            &mut results_ahead,
        ) {
            Err(fault) => return Err(fault),
            Ok(()) => {}
        }
        last = header.stated;
        want += 1;
    }
    Ok(last)
}

impl<'a> Ahead<'a> {
    /// Before the first of the records.
    fn new(rest: &'a [RecordFact]) -> Ahead<'a>
        ensures { result.rest.now ≡ rest.now }
    {
        Ahead { rest }
    }

    /// Goes to the first record that has at least a number, and answers its hash where it has just that number.
    fn take(&mut self, seq: u32) -> Option<Hash>
        requires { walk.AreRising None self.old.rest.now }
        ensures hash { result ≡ spec.hash_at self.old.rest.now seq }
        ensures later { walk.IsAheadFor seq self.old.rest.now self.new.rest.now }
    {
        while let [first, rest @ ..] = self.rest {
            if first.seq >= seq {
                break;
            }
            self.rest = rest;
        }
        match self.rest {
            [first, ..] if first.seq == seq => Some(first.hash),
            _ => None,
        }
    }
}
