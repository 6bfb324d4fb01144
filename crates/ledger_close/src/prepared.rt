//! A prepared close: what the ledger takes when it is installed.

ghost use Rattle.std.specs.Prelude.{◌≡◌};
ghost use Rattle.value_hashes.specs.Hashes.{ledger_hash_of};

use bucket_levels::LevelStep;
use entry_map::Batch;
use ledger_types::{Hash, LedgerHeader};
use level_pages::StoredEntries;
use op_types::{TransactionResultSet, TransactionSet};
use page_cache::PageCache;
use std::marker::Model;

/// A close that is made and not yet taken: its results, the state after it, and what of the entries it makes another
/// than it was. Contracts see these.
#[derive(Drop)]
pub struct Prepared {
    pub(crate) network: Hash,
    pub(crate) results: TransactionResultSet,
    pub(crate) header: LedgerHeader,
    // The hash of the header.
    pub(crate) digest: Hash,
    pub(crate) entries: StoredEntries,
    pub(crate) batch: Batch,
    pub(crate) step: LevelStep,
    // Of the files that are new, with no page in them.
    pub(crate) caches: Vec<PageCache>,
}

impl Model for Prepared {
    ghost use Rattle.close_rules.specs.Images.{state_of};
    ghost use Rattle.ledger_close.specs.States.{PreparedAt, prepared_code, IsReady};

    ghost Value = { PreparedAt };

    ghost coded = { prepared_code };

    ghost view = { λ p. record {
      results = p.results.results;
      state = state_of p.network p.header p.step.pairs p.entries;
      batch = p.batch;
    } };

    ghost invariant = { λ p. IsReady p.digest p.header p.step p.caches.items };
}

impl Prepared {
    /// The header after the close.
    pub fn header(&self) -> &LedgerHeader
        ensures { result.now ≡ self.now.state.header }
    {
        &self.header
    }

    /// The hash of that header, SHA-256 (FIPS 180-4) of its XDR.
    pub fn header_hash(&self) -> Hash
        ensures { result ≡ ledger_hash_of self.now.state.header }
    {
        self.digest
    }

    /// The results of the set, in the order in which its transactions were applied.
    pub fn results(&self) -> &TransactionResultSet
        ensures { result.now.results ≡ self.now.results }
    {
        &self.results
    }

    /// What of the ledger's entries the close makes another than it was.
    pub fn batch(&self) -> &Batch
        ensures { result.now ≡ self.now.batch }
    {
        &self.batch
    }
}

/// A prepared close with the set of its record.
#[derive(Drop)]
pub struct DetailedClose {
    pub prepared: Prepared,
    pub set: TransactionSet,
}
