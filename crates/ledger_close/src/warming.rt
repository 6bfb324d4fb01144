//! Pages of entries that are expected to be asked for.

ghost use Rattle.std.specs.Prelude.{◌≡◌, ◌<◌, ◌^◌, length, IfOk};
ghost use Rattle.bucket_levels.specs.Meaning.{files_of};
ghost use Rattle.page_cache.specs.Caches.{AreWarmed, contents_in, marked_count};

use crate::ledger::Ledger;
use ledger_types::LedgerKey;
use std::alloc::AllocError;

impl Ledger {
    /// Takes the page of each of fewer than 2^32 keys, in order, into the cache of the file with its newest mark, and
    /// answers how many of them have one. Where memory is refused at a key, the pages taken before it stay. What the
    /// next ledgers are is the same either way.
    pub fn warm(&mut self, keys: &[LedgerKey]) -> Result<u32, AllocError>
        requires { length keys.now < 2 ^ 32 }
        ensures count { IfOk result (λ count. count ≡ marked_count (files_of self.old.state.levels) keys.now) }
        ensures files { contents_in self.old.caches ≡ files_of self.old.state.levels }
        ensures pages { AreWarmed keys.now self.old.caches result self.new.caches }
        ensures state { self.new.state ≡ self.old.state }
        ensures pending { self.new.pending ≡ self.old.pending }
    {
        self.caches.warm(keys)
    }
}
