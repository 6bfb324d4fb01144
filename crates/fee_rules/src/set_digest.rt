//! The hash of a set.

ghost use Rattle.std.specs.Prelude.{◌≡◌, IfOk, map};
ghost use Rattle.std.specs.List.{IsDistinct};
ghost use Rattle.fee_rules.specs.Queues.{has_index_of};
ghost use Rattle.fee_rules.specs.Encodings.{text_at, texts_by_hash};
ghost use Rattle.hash_ids.specs.Ids.{set_hash_of};

use crate::hashed::{Hashed, in_order};
use crate::queued::Queued;
use ledger_types::Hash;
use std::alloc::{AllocError, Global};

/// The text at an index of a list, or nothing.
fn text_in<'a>(texts: &'a [Vec<u8>], index: u32) -> &'a [u8]
    ensures { result.now ≡ text_at (map (λ text. text.items) texts.now) index }
{
    match texts.get(index as usize) {
        None => &[],
        Some(text) => text.as_slice(),
    }
}

/// The texts of envelopes in this order.
fn texts_in<'a>(
    alloc: Global,
    texts: &'a [Vec<u8>],
    order: &[Hashed],
) -> Result<Vec<&'a [u8]>, AllocError>
    ensures { IfOk result (λ found. map (λ text. text.now) found.items
        ≡ map (λ hashed. text_at (map (λ text. text.items) texts.now) hashed.index) order.now) }
{
    let mut found = Vec::with_capacity(alloc, order.len())?;
    for hashed in order {
        found.push(text_in(texts, hashed.index))?;
    }
    Ok(found)
}

/// The hash of a set after the ledger with this hash, whose envelopes have these encodings and are in these queues:
/// SHA-256 of the hash of the ledger before it and of the encodings in the order of their own hashes, without a count
/// (TxSetFrame::getContentsHash in stellar-core).
pub(crate) fn hash_of_texts(
    alloc: Global,
    previous: &Hash,
    texts: &[Vec<u8>],
    queued: &[Queued],
) -> Result<Hash, AllocError>
    requires { IsDistinct has_index_of queued.now }
    ensures { IfOk result (λ hash. hash
        ≡ set_hash_of previous.now (texts_by_hash (map (λ text. text.items) texts.now) queued.now)) }
{
    let order = in_order(alloc, queued)?;
    let texts = texts_in(alloc, texts, order.as_slice())?;
    hash_ids::set_hash(previous, texts.as_slice())
}
