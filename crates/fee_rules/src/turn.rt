//! When transactions go.

ghost use Rattle.std.specs.Prelude.{◌≡◌, map, length, IfOk, ◌<◌, ◌^◌};
ghost use Rattle.std.specs.List.{IsDistinct};
ghost use Rattle.std.specs.List.Sorted.{IsSorted};
ghost use Rattle.std.specs.Ordering.{eq_by_cmp};
ghost use Rattle.fee_rules.specs.Queues.{queued_cmp};
ghost use Rattle.fee_rules.specs.Runs.{next_start};
ghost use Rattle.fee_rules.specs.Turns as spec;

use crate::queued::Queued;
use ledger_types::Hash;
use std::alloc::{AllocError, Global};
use std::cmp::Ordering;

/// When a transaction goes. Turns are ordered by rank, mixed hash and index.
#[derive(Clone, Copy, PartialEq, Eq, PartialOrd, Ord)]
pub(crate) struct Turn {
    /// How many of its source go before it.
    pub queue_rank: u32,
    /// Its full hash xor the set's.
    pub mixed: Hash,
    /// The index of its envelope in the set's list.
    pub index: u32,
}

/// A hash, bit by bit xor another one.
#[tactic(auto, unfolding(crate::specs::Turns::mixed_bytes))]
fn mixed_hash(a: &Hash, b: &Hash) -> Hash
    ensures { result ≡ spec.mixed_hash a.now b.now }
{
    let mut bytes = [0; 32];
    for (i, byte) in a.0.iter().enumerate() {
        bytes[i] = *byte ^ b.0[i];
    }
    Hash(bytes)
}

/// Where the run of one source begins that the transaction at `i` is in, if the run of the one before it began at
/// `start`, with `first`.
fn run_start(first: &Queued, tx: &Queued, start: usize, i: usize) -> usize
    ensures { result ≡ next_start first.now tx.now start i }
{
    match first.source.cmp(&tx.source) {
        Ordering::Equal => start,
        _ => i,
    }
}

/// The turns of transactions that are ordered by source and as in their queues.
pub(crate) fn turns_of(
    alloc: Global,
    set_hash: &Hash,
    queued: &[Queued],
) -> Result<Vec<Turn>, AllocError>
    requires sorted { IsSorted queued_cmp queued.now }
    requires apart { IsDistinct (eq_by_cmp queued_cmp) queued.now }
    requires few { length queued.now < 2 ^ 32 }
    ensures { IfOk result (λ turns. turns.items ≡ spec.turns_of set_hash.now queued.now) }
{
    let mut turns = Vec::new(alloc);
    let mut start = 0;
    for (i, tx) in queued.iter().enumerate() {
        start = run_start(&queued[start], tx, start, i);
        turns.push(Turn {
            queue_rank: (i - start) as u32,
            mixed: mixed_hash(&tx.full_hash, set_hash),
            index: tx.index,
        })?;
    }
    Ok(turns)
}
