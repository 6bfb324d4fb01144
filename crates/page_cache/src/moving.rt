//! The caches after a step of the levels: new ones of the files that are new, and those of the files that stay.

ghost use Rattle.std.specs.Prelude.{◌≡◌, ◌≤◌, ◌<◌, ◌+◌, ◌*◌, ℕ, List, true, false, length, map, set, if◌then◌else◌};
ghost use Rattle.std.specs.Prelude.{IfOk};
ghost use Rattle.bucket_levels.specs.Levels.{pair_of};
ghost use Rattle.bucket_levels.specs.Pairs.{Pair};
ghost use Rattle.bucket_levels.specs.Spills.{level_count};
ghost use Rattle.page_cache.specs.Caches as spec;

use crate::cache::PageCache;
use crate::level_caches::{LevelCaches, cache_of};
use bucket_levels::LevelPair;
use std::alloc::{AllocError, Global};
use std::mem;

/// How many levels, from the first one on, get a new curr at a ledger: each below one that spills (BucketList in
/// stellar-core).
fn renewed_count(seq: u32) -> u32
    ensures some { 1 ≤ result }
    ensures most { result ≤ level_count }
    ensures new { (i : ℕ) → i < result → spec.takes_curr i seq ≡ true }
    ensures others { (i : ℕ) → result ≤ i → spec.takes_curr i seq ≡ false }
{
    let mut count = 1;
    while count < 11 && seq % (4u32.pow(count) / 2) == 0 {
        count += 1;
    }
    count
}

/// The caches of the currs that are new after ledger `seq`, of the files of the eleven levels after it.
pub fn new_caches(
    alloc: Global,
    seq: u32,
    pairs: &[LevelPair],
) -> Result<Vec<PageCache>, AllocError>
    requires { length pairs.now ≡ level_count }
    ensures { IfOk result (λ caches. spec.AreNewCaches seq (map pair_of pairs.now) caches.items) }
{
    let count = renewed_count(seq) as usize;
    let mut caches = Vec::with_capacity(alloc, count)?;
    for level in 0..count {
        caches.push(cache_of(&pairs[level].curr)?)?;
    }
    Ok(caches)
}

/// A level gets a new curr. Where it spills, what was its curr is its snap.
fn move_level(caches: &mut Vec<PageCache>, level: usize, curr: PageCache, spills: bool)
    requires { 2 * level + 1 < length caches.old.items }
    ensures { caches.new.items ≡ (if spills
        then set (set caches.old.items (2 * level) curr) (2 * level + 1) (spec.cache_at caches.old.items (2 * level))
        else set caches.old.items (2 * level) curr) }
{
    let was = mem::replace(&mut caches[2 * level], curr);
    if spills {
        caches[2 * level + 1] = was;
    }
}

/// Takes caches of the currs that are new. It takes no memory.
fn take_currs(caches: &mut Vec<PageCache>, mut currs: Vec<PageCache>)
    requires few { length currs.items ≤ level_count }
    requires levels { length caches.old.items ≡ 2 * level_count }
    ensures { spec.AreTakenFrom 0 currs.items caches.old.items caches.new.items }
{
    let count = currs.len();
    while let Some(curr) = currs.pop() {
        let level = currs.len();
        move_level(caches, level, curr, level + 1 < count);
    }
}

impl LevelCaches {
    /// The caches after ledger `seq`, with those of the currs that are new after it. Where a level spills, the cache of
    /// what was its curr is its snap's. It takes no memory.
    pub fn take(&mut self, currs: Vec<PageCache>)
        requires new { (seq : ℕ) × (pairs : List Pair) × spec.AreNewCaches seq pairs currs.items }
        requires levels { length self.old ≡ 2 * level_count }
        ensures { (seq : ℕ) (pairs : List Pair) → spec.AreNewCaches seq pairs currs.items
            → spec.AreMoved seq pairs self.old self.new }
    {
        take_currs(&mut self.caches, currs);
    }
}
