//! The order in which the transactions of a set are applied.

ghost use Rattle.std.specs.Prelude.{◌≡◌, ◌<◌, ◌^◌, IfOk, length, map};
ghost use Rattle.std.specs.List.{IsDistinct};
ghost use Rattle.std.specs.List.Sorted.{IsPermutation, IsSorted};
ghost use Rattle.xdr_tx.specs.Transactions.{transaction_set};
ghost use Rattle.fee_rules.specs.Queues.{has_index_of};
ghost use Rattle.fee_rules.specs.SetHash.{hash_of_set};
ghost use Rattle.fee_rules.specs.Turns as spec;

use crate::encoding::{Encoded, encode_all};
use crate::queued::Queued;
use crate::set_digest::hash_of_texts;
use crate::turn::{Turn, turns_of};
use ledger_types::Hash;
use op_types::TransactionSet;
use std::alloc::{AllocError, Global};

/// The turns in their order.
fn in_turn(turns: Vec<Turn>) -> Result<Vec<Turn>, AllocError>
    ensures all { IfOk result (λ order. IsPermutation turns.items order.items) }
    ensures in_turn { IfOk result (λ order. IsSorted spec.turn_cmp order.items) }
{
    let mut turns = turns;
    turns.sort()?;
    Ok(turns)
}

/// The indices of turns.
fn indices_of(alloc: Global, turns: &[Turn]) -> Result<Vec<u32>, AllocError>
    ensures { IfOk result (λ indices. indices.items ≡ map (λ turn. turn.index) turns.now) }
{
    turns.iter().map(|turn| turn.index).collect(alloc)
}

/// The indices of transactions in the order in which they are applied, in a set with this hash.
fn indices_in_order(
    alloc: Global,
    set_hash: &Hash,
    queued: Vec<Queued>,
) -> Result<Vec<u32>, AllocError>
    requires apart { IsDistinct has_index_of queued.items }
    requires few { length queued.items < 2 ^ 32 }
    ensures { IfOk result (λ indices. indices.items ≡ spec.indices_in_order set_hash.now queued.items) }
{
    let mut queued = queued;
    queued.sort()?;
    let turns = turns_of(alloc, set_hash, queued.as_slice())?;
    let order = in_turn(turns)?;
    indices_of(alloc, order.as_slice())
}

/// The hash of a set, and the order in which its transactions are applied.
#[derive(Drop)]
pub struct SetOrder {
    /// SHA-256 of the hash of the ledger before the set and of the encodings of its envelopes in the order of their own
    /// hashes, without a count (TxSetFrame::getContentsHash in stellar-core).
    pub set_hash: Hash,
    /// Indices in the set's list: each source's transactions in the order of their sequence numbers, and among those
    /// that are equally far in their queues by the full hash xor the set's (TxSetFrame::sortForApply in stellar-core).
    pub indices: Vec<u32>,
}

/// The hash and the order of a set, each of whose envelopes is encoded and hashed once. The set has an encoding: its
/// lists and texts keep their bounds.
pub fn set_order(alloc: Global, set: &TransactionSet) -> Result<SetOrder, AllocError>
    requires { transaction_set.within set.now }
    ensures hash { IfOk result (λ order. order.set_hash ≡ hash_of_set set.now) }
    ensures indices { IfOk result (λ order. order.indices.items ≡ spec.apply_order_of set.now) }
{
    let Encoded { texts, queued } = encode_all(alloc, set.txs.as_slice())?;
    let previous = &set.previous_ledger_hash;
    let set_hash = hash_of_texts(alloc, previous, texts.as_slice(), queued.as_slice())?;
    Ok(SetOrder {
        indices: indices_in_order(alloc, &set_hash, queued)?,
        set_hash,
    })
}

/// The indices of the transactions of a set, in the order in which they are applied. The set has an encoding: its lists
/// and texts keep their bounds.
pub fn apply_order(alloc: Global, set: &TransactionSet) -> Result<Vec<u32>, AllocError>
    requires { transaction_set.within set.now }
    ensures { IfOk result (λ indices. indices.items ≡ spec.apply_order_of set.now) }
{
    let SetOrder {
        set_hash: _,
        indices,
    } = set_order(alloc, set)?;
    Ok(indices)
}
