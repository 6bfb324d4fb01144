//! Hashes of levels. They take no memory.

ghost use Rattle.std.specs.Prelude.{◌≡◌, map};
ghost use Rattle.bucket_levels.specs.Levels.{pair_of};
ghost use Rattle.bucket_levels.specs.Hash.{level_hash, list_hash};

use crate::pair::LevelPair;
use ledger_types::Hash;
use sha2::{Digest, Sha256};

/// The hash of a level: of the hash of curr and that of snap.
fn hash_of_level(pair: &LevelPair) -> Hash
    ensures { result ≡ level_hash (pair_of pair.now) }
{
    let curr = pair.curr.hash();
    let snap = pair.snap.hash();
    let mut hasher = Sha256::new();
    hasher.update(curr.0.as_slice());
    hasher.update(snap.0.as_slice());
    Hash(hasher.finalize())
}

/// The hash of levels: of their hashes, from the first one on.
pub(crate) fn hash_of_levels(pairs: &[LevelPair]) -> Hash
    ensures { result ≡ list_hash (map pair_of pairs.now) }
{
    let mut hasher = Sha256::new();
    for pair in pairs {
        let level = hash_of_level(pair);
        hasher.update(level.0.as_slice());
    }
    Hash(hasher.finalize())
}
