//! Envelopes by their hashes.

ghost use Rattle.std.specs.Prelude.{◌≡◌, IfOk, map};
ghost use Rattle.std.specs.List.{IsDistinct};
ghost use Rattle.std.specs.Ordering.{eq_by_cmp};
ghost use Rattle.fee_rules.specs.Queues.{has_index_of};
ghost use Rattle.fee_rules.specs.Ranking.{ranked};
ghost use Rattle.fee_rules.specs.SetHash as spec;

use crate::queued::Queued;
use ledger_types::Hash;
use std::alloc::{AllocError, Global};

/// An envelope's hash and its index in the set's list. These are ordered by hash, and equal envelopes by their indices.
#[derive(Clone, Copy, PartialEq, Eq, PartialOrd, Ord)]
pub(crate) struct Hashed {
    pub full_hash: Hash,
    pub index: u32,
}

/// The hash and the index of an envelope.
fn hash_and_index(queued: &Queued) -> Hashed
    ensures { result ≡ spec.hashed_of queued.now }
{
    Hashed {
        full_hash: queued.full_hash,
        index: queued.index,
    }
}

/// The hashes and indices of envelopes.
fn all_hashed(alloc: Global, queued: &[Queued]) -> Result<Vec<Hashed>, AllocError>
    ensures { IfOk result (λ hashed. hashed.items ≡ map spec.hashed_of queued.now) }
{
    queued
        .iter()
        .map(|queued| hash_and_index(queued))
        .collect(alloc)
}

/// Hashes in their order.
fn by_hash(hashed: Vec<Hashed>) -> Result<Vec<Hashed>, AllocError>
    requires { IsDistinct (eq_by_cmp spec.hashed_cmp) hashed.items }
    ensures { IfOk result (λ order. order.items ≡ ranked spec.hashed_cmp hashed.items) }
{
    let mut hashed = hashed;
    hashed.sort()?;
    Ok(hashed)
}

/// Envelopes in the order of their hashes.
pub(crate) fn in_order(alloc: Global, queued: &[Queued]) -> Result<Vec<Hashed>, AllocError>
    requires { IsDistinct has_index_of queued.now }
    ensures { IfOk result (λ order. order.items ≡ ranked spec.hashed_cmp (map spec.hashed_of queued.now)) }
{
    let hashed = all_hashed(alloc, queued)?;
    by_hash(hashed)
}
