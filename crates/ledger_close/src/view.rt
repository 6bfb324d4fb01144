//! A ledger's state after a close, for those who read it while the ledger goes on.

ghost use Rattle.std.specs.Prelude.{◌≡◌, IfOk, length, map};
ghost use Rattle.std.specs.Arc.{arc_value};
ghost use Rattle.std.specs.FinMap.{get};
ghost use Rattle.value_hashes.specs.Hashes.{ledger_hash_of};
ghost use Rattle.bucket_levels.specs.Levels.{pair_of};
ghost use Rattle.bucket_levels.specs.Spills.{level_count};

use crate::buckets::push_pair;
use crate::ledger::Ledger;
use bucket_levels::{LevelPair, Levels};
use ledger_types::{Hash, LedgerEntry, LedgerHeader, LedgerKey};
use level_pages::{find_entry, share_pair};
use std::alloc::{AllocError, Global};
use std::marker::Model;
use std::sync::Arc;

/// A ledger's state after a close. It shares the ledger's files, finds entries in them, and stays as it is while the
/// ledger goes on. Contracts see it as that state.
#[derive(Drop)]
pub struct View {
    pub(crate) network: Hash,
    pub(crate) header: LedgerHeader,
    // The hash of the header.
    pub(crate) digest: Hash,
    // The files of each level, from the first level on.
    pub(crate) pairs: Vec<LevelPair>,
}

impl Model for View {
    ghost use Rattle.std.specs.Prelude.{◌≡◌, map};
    ghost use Rattle.value_hashes.specs.Hashes.{ledger_hash_of};
    ghost use Rattle.bucket_levels.specs.Levels.{pair_of};
    ghost use Rattle.bucket_levels.specs.Meaning.{entries_of};
    ghost use Rattle.close_rules.specs.State.{ClosingState};
    ghost use Rattle.close_rules.specs.Images.{state_of};
    ghost use Rattle.ledger_close.specs.States.{state_code};

    ghost Value = { ClosingState };

    ghost coded = { state_code };

    ghost view = { λ v.
        state_of v.network v.header (map pair_of v.pairs.items) (entries_of (map pair_of v.pairs.items)) };

    ghost invariant = { λ v. v.digest ≡ ledger_hash_of v.header };
}

impl View {
    /// The number of the ledger.
    pub fn seq(&self) -> u32
        ensures { result ≡ self.now.header.ledger_seq }
    {
        self.header.ledger_seq
    }

    /// The hash of the ledger's header, SHA-256 (FIPS 180-4) of its XDR.
    pub fn header_hash(&self) -> Hash
        ensures { result ≡ ledger_hash_of self.now.header }
    {
        self.digest
    }

    /// The entry with a key.
    pub fn find(&self, key: &LedgerKey) -> Result<Option<LedgerEntry>, AllocError>
        ensures { IfOk result (λ entry. entry ≡ get self.now.entries key.now) }
    {
        find_entry(*self.pairs.allocator(), self.pairs.as_slice(), key)
    }
}

/// The files of all levels, for one owner more.
fn share_pairs(alloc: Global, levels: &Levels) -> Result<Vec<LevelPair>, AllocError>
    requires { length levels.now.pairs ≡ level_count }
    ensures { IfOk result (λ pairs. map pair_of pairs.items ≡ levels.now.pairs) }
{
    let mut pairs = Vec::with_capacity(alloc, 11)?;
    for level in 0..11u32 {
        push_pair(&mut pairs, share_pair(levels.pair(level))?)?;
    }
    Ok(pairs)
}

impl Ledger {
    /// The state after the last close, for those who read it while this ledger goes on. It copies the header and
    /// shares the files.
    pub fn view(&self) -> Result<Arc<View>, AllocError>
        ensures { IfOk result (λ view. arc_value view ≡ self.now.state) }
    {
        let alloc = self.allocator();
        let view = View {
            network: self.network,
            header: self.header.copy()?,
            digest: self.digest,
            pairs: share_pairs(alloc, &self.levels)?,
        };
        Ok(Arc::new(alloc, view)?)
    }
}
