//! The caches of all files of a ledger's levels.

ghost use Rattle.std.specs.Prelude.{◌≡◌, ◌∷◌, ◌++◌, ◌<◌, ◌^◌, [], length, map, IfOk, OnOk, OnErr};
ghost use Rattle.ledger_types.specs.declared.key.LedgerKey.{LedgerKey as AKey};
ghost use Rattle.bucket_levels.specs.Levels.{pair_of};
ghost use Rattle.bucket_levels.specs.Meaning.{files_of};
ghost use Rattle.page_cache.specs.Caches as spec;
ghost use Rattle.page_cache.specs.Sought.{IsSought};

use crate::cache::PageCache;
use crate::sought::{SoughtKey, sought_key};
use bucket_core::Bucket;
use bucket_levels::LevelPair;
use ledger_types::LedgerKey;
use std::alloc::{AllocError, Global};
use std::marker::Model;
use std::sync::Arc;

/// The caches of the files of levels: of each level its curr's and then its snap's, from the first level on. Contracts
/// see them in this order, which is that of the files from the newest to the oldest.
#[derive(Drop)]
pub struct LevelCaches {
    pub(crate) caches: Vec<PageCache>,
}

impl Model for LevelCaches {
    ghost use Rattle.std.specs.Prelude.{List};
    ghost use Rattle.std.specs.Coded.{coded_list};
    ghost use Rattle.page_cache.specs.Pages.{CacheAt, cache_code};

    ghost Value = { List CacheAt };

    ghost coded = { coded_list cache_code };

    ghost view = { λ c. c.caches.items };
}

/// A cache of a file that others own too.
pub(crate) fn cache_of(bucket: &Arc<Bucket>) -> Result<PageCache, AllocError>
    ensures { IfOk result (λ cache. cache ≡ spec.no_pages bucket.now.value) }
{
    PageCache::new(bucket.clone()?)
}

/// Adds caches of the two files of a level.
fn push_caches(caches: &mut Vec<PageCache>, pair: &LevelPair) -> Result<(), AllocError>
    ensures { OnOk result (caches.new.items
        ≡ caches.old.items ++ spec.no_pages pair.now.curr.value ∷ spec.no_pages pair.now.snap.value ∷ []) }
{
    caches.push(cache_of(&pair.curr)?)?;
    caches.push(cache_of(&pair.snap)?)?;
    Ok(())
}

/// Takes the page of a key into the cache of the newest file that has a mark of it: `true` exactly where one has.
fn warm_newest(caches: &mut [PageCache], sought: &Option<SoughtKey>) -> Result<bool, AllocError>
    requires { (k : AKey) × IsSought k sought.now }
    ensures ok { (k : AKey) → IsSought k sought.now → OnOk result (caches.new ≡ spec.warmed k caches.old) }
    ensures marked { (k : AKey) → IsSought k sought.now
        → IfOk result (λ has. has ≡ spec.is_marked (spec.contents_in caches.old) k) }
    ensures err { OnErr result (caches.new ≡ caches.old) }
{
    for i in 0..caches.len() {
        if caches[i].warm_sought(sought)? {
            return Ok(true);
        }
    }
    Ok(false)
}

/// The same, by the key.
fn warm_key(alloc: Global, caches: &mut [PageCache], key: &LedgerKey) -> Result<bool, AllocError>
    ensures ok { OnOk result (caches.new ≡ spec.warmed key.now caches.old) }
    ensures marked { IfOk result (λ has. has ≡ spec.is_marked (spec.contents_in caches.old) key.now) }
    ensures err { OnErr result (caches.new ≡ caches.old) }
{
    let sought = sought_key(alloc, key)?;
    warm_newest(caches, &sought)
}

/// Takes the page of each key, in order, and answers how many have a mark.
fn warm_all(alloc: Global, caches: &mut [PageCache], keys: &[LedgerKey]) -> Result<u32, AllocError>
    requires { length keys.now < 2 ^ 32 }
    ensures pages { spec.AreWarmed keys.now caches.old result caches.new }
    ensures files { spec.contents_in caches.new ≡ spec.contents_in caches.old }
{
    let mut count = 0;
    for key in keys {
        if warm_key(alloc, caches, key)? {
            count += 1;
        }
    }
    Ok(count)
}

impl LevelCaches {
    /// Caches of the files of levels, with no page in them.
    pub fn new(alloc: Global, pairs: &[LevelPair]) -> Result<LevelCaches, AllocError>
        ensures { IfOk result (λ caches. caches ≡ map spec.no_pages (files_of (map pair_of pairs.now))) }
    {
        let mut caches = Vec::new(alloc);
        for pair in pairs {
            push_caches(&mut caches, pair)?;
        }
        Ok(LevelCaches { caches })
    }

    /// Takes the page of each key, in order, into the cache of the file with its newest mark, and answers how many have
    /// one. Where memory is refused at a key, the pages taken before it stay.
    pub fn warm(&mut self, keys: &[LedgerKey]) -> Result<u32, AllocError>
        requires { length keys.now < 2 ^ 32 }
        ensures pages { spec.AreWarmed keys.now self.old result self.new }
        ensures files { spec.contents_in self.new ≡ spec.contents_in self.old }
    {
        let alloc = *self.caches.allocator();
        warm_all(alloc, self.caches.as_mut_slice(), keys)
    }
}
