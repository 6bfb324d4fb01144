//! The ledger between two closes.

ghost use Rattle.std.specs.Prelude.{◌≡◌, ◌≤◌, IfOk, ℕ, List, length, Ok};
ghost use Rattle.std.specs.FinMap.{entries, get};
ghost use Rattle.value_hashes.specs.Hashes.{ledger_hash_of};
ghost use Rattle.close_laws.specs.op_form.Sequences.{last_seq};
ghost use Rattle.bucket_levels.specs.Pending.{AreRenewed};
ghost use Rattle.page_cache.specs.Caches.{AreMoved};
ghost use Rattle.ledger_close.specs.States.{close_of};
ghost use Rattle.close_rules.specs.Close.{IsClose};
ghost use Rattle.close_rules.specs.State.{IsClosingState};

use crate::prepared::Prepared;
use bucket_levels::Levels;
use close_laws::closes::{next_is_closing, taken_is_closable};
use entry_map::{Base, OfferIndex};
use ledger_types::{Hash, LedgerEntry, LedgerHeader, LedgerKey};
use level_pages::StoredEntries;
use page_cache::LevelCaches;
use std::alloc::AllocError;
use std::marker::Model;

/// A ledger after its last close: its header, the files of its levels, and its entries, which are looked up in the
/// files. Contracts see these, with the network that its transactions are signed for, what is there of the merge that
/// is pending into each level, and the caches of the files, from the newest to the oldest.
#[derive(Drop)]
pub struct Ledger {
    pub(crate) network: Hash,
    pub(crate) header: LedgerHeader,
    // The hash of the header.
    pub(crate) digest: Hash,
    pub(crate) entries: StoredEntries,
    pub(crate) levels: Levels,
    // Pages of the files that were asked for last.
    pub(crate) caches: LevelCaches,
}

impl Model for Ledger {
    ghost use Rattle.close_rules.specs.Images.{state_of};
    ghost use Rattle.ledger_close.specs.States.{LedgerAt, ledger_code, IsKept};

    ghost Value = { LedgerAt };

    ghost coded = { ledger_code };

    ghost view = { λ l. record {
      state = state_of l.network l.header l.levels.pairs l.entries;
      pending = l.levels.pending;
      caches = l.caches;
    } };

    ghost invariant = { λ l. IsKept l.network l.digest l.header l.entries l.levels.pairs l.levels.seq l.caches };
}

impl Ledger {
    /// The header of the last close.
    pub fn header(&self) -> &LedgerHeader
        ensures header { result.now ≡ self.now.state.header }
        ensures seq { result.now.ledger_seq ≤ last_seq }
    {
        &self.header
    }

    /// The hash of that header, SHA-256 (FIPS 180-4) of its XDR.
    pub fn header_hash(&self) -> Hash
        ensures { result ≡ ledger_hash_of self.now.state.header }
    {
        self.digest
    }

    /// The next ledger closes from this one's state: it is legal, and all of it can be written.
    pub fn is_closing(&self)
        ensures { IsClosingState self.now.state }
    {
        // read, so that the contract can speak of the entire ledger
        let _ = &self.network;
    }

    /// The entry with a key.
    pub fn get(&self, key: &LedgerKey) -> Result<Option<LedgerEntry>, AllocError>
        ensures { IfOk result (λ entry. entry ≡ get self.now.state.entries key.now) }
    {
        self.entries.find(key)
    }

    /// How many entries there are.
    pub fn entry_count(&self) -> usize
        ensures { result ≡ length (entries self.now.state.entries) }
    {
        self.entries.len()
    }

    /// The ledger takes a close that was prepared from it, of a record of at most 16777216 bytes. It takes no memory.
    pub fn install(&mut self, prepared: Prepared)
        requires { (bytes : List ℕ) × IsClose self.old.state bytes (Ok (close_of prepared))
            × (length bytes ≤ 16777216) }
        ensures state { self.new.state ≡ prepared.state }
        ensures pending { AreRenewed prepared.state.header.ledger_seq self.old.pending self.new.pending }
        ensures caches { AreMoved prepared.state.header.ledger_seq prepared.state.levels self.old.caches self.new.caches }
    {
        taken_is_closable();
        next_is_closing();
        let Prepared {
            network,
            results: _,
            header,
            digest,
            entries,
            batch: _,
            step,
            caches,
        } = prepared;
        self.levels.take_step(step);
        self.caches.take(caches);
        self.network = network;
        self.header = header;
        self.digest = digest;
        self.entries = entries;
    }
}

impl Base for Ledger {
    ghost entries = { λ ledger. ledger.state.entries };

    fn find(&self, key: &LedgerKey) -> Result<Option<LedgerEntry>, AllocError> {
        self.entries.find(key)
    }

    fn next_after(&self, key: &LedgerKey) -> Result<Option<LedgerEntry>, AllocError> {
        self.entries.next_after(key)
    }

    fn offers(&self) -> Result<OfferIndex, AllocError> {
        self.entries.offers()
    }
}
