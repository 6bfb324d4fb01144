//! The most recently used pages of a bucket, decoded.

ghost use Rattle.std.specs.Prelude.{◌≡◌, ◌≢◌, ◌*◌, ◌<◌, [], length, option_map, None, IfOk, IfSome, MatchBool, OnOk};
ghost use Rattle.std.specs.Prelude.{OnErr};
ghost use Rattle.bucket_core.specs.Bucket.{change_at};
ghost use Rattle.bucket_core.specs.File.{item_of};
ghost use Rattle.std.specs.NonZero.{non_zero_usize_get};
ghost use Rattle.bucket_core.specs.Index.{rows, index_of};
ghost use Rattle.page_cache.specs.Pages as spec;
ghost use Rattle.page_cache.specs.Sought as seeking;
ghost use Rattle.ledger_types.specs.declared.key.LedgerKey.{LedgerKey as AKey};

use crate::page::{PAGE_LEN, read_page};
use crate::sought::{SoughtKey, sought_key};
use bucket_core::{Bucket, encoded_key};
use item_list::ItemList;
use ledger_types::{BucketEntry, LedgerKey};
use lru::LruCache;
use std::alloc::AllocError;
use std::marker::Model;
use std::num::NonZeroUsize;
use std::sync::Arc;

/// How many pages a cache keeps.
fn cache_len() -> NonZeroUsize
    ensures { non_zero_usize_get result ≡ 64 }
{
    match NonZeroUsize::new(64) {
        Some(len) => len,
        None => unreachable!(),
    }
}

/// A bucket with up to 64 of its pages, decoded. Contracts see the bucket, and the numbers of the pages, the most
/// recently used first.
#[derive(Drop)]
pub struct PageCache {
    bucket: Arc<Bucket>,
    pages: LruCache<u32, ItemList<BucketEntry>>,
}

impl Model for PageCache {
    ghost use Rattle.page_cache.specs.Pages.{CacheAt, cache_code, numbers_of, IsCache};

    ghost Value = { CacheAt };

    ghost coded = { cache_code };

    ghost view = { λ c. record { contents = c.bucket.value; numbers = numbers_of c.pages.entries } };

    ghost invariant = { λ c. IsCache c.bucket.value c.pages.entries c.pages.cap };
}

impl PageCache {
    /// No pages of a bucket.
    pub fn new(bucket: Arc<Bucket>) -> Result<PageCache, AllocError>
        ensures bucket { IfOk result (λ cache. cache.contents ≡ bucket.value) }
        ensures pages { IfOk result (λ cache. cache.numbers ≡ []) }
    {
        let pages = LruCache::sparse(bucket.allocator(), cache_len())?;
        Ok(PageCache { bucket, pages })
    }

    /// Takes a page to the front, from its place or from the bucket. The least recently used one of 64 then goes.
    fn take_page(&mut self, number: usize) -> Result<(), AllocError>
        requires { number * 64 < length (rows self.old.contents) }
        ensures ok { OnOk result (spec.IsFirst number self.old self.new) }
        ensures err { OnErr result (self.new ≡ self.old) }
    {
        let Ok(key) = u32::try_from(number) else {
            return Err(AllocError);
        };
        if self.pages.contains(&key) {
            self.pages.promote(&key);
            return Ok(());
        }
        let page = read_page(&self.bucket, number)?;
        match self.pages.put(key, page) {
            Ok(_) => Ok(()),
            Err(_) => Err(AllocError),
        }
    }

    /// Takes the page of a key to the front: `true` exactly where the key has a mark. The least recently used one of 64
    /// others then goes. After `false` and after an error the pages are as before.
    pub fn warm(&mut self, key: &LedgerKey) -> Result<bool, AllocError>
        ensures marked { IfOk result (λ has.
            MatchBool has (change_at self.old.contents key.now ≢ None) (change_at self.old.contents key.now ≡ None)) }
        ensures pages { spec.IsWarmed key.now self.old result self.new }
    {
        let sought = sought_key(self.bucket.allocator(), key)?;
        self.warm_sought(&sought)
    }

    /// The same, by a key that is sought in several files.
    pub(crate) fn warm_sought(&mut self, sought: &Option<SoughtKey>) -> Result<bool, AllocError>
        requires { (k : AKey) × seeking.IsSought k sought.now }
        ensures marked { (k : AKey) → seeking.IsSought k sought.now → IfOk result (λ has.
            MatchBool has (change_at self.old.contents k ≢ None) (change_at self.old.contents k ≡ None)) }
        ensures none { (k : AKey) → seeking.IsSought k sought.now → IfOk result (λ has.
            MatchBool has (Unit {0}) (index_of k (rows self.old.contents) ≡ None)) }
        ensures pages { (k : AKey) → seeking.IsSought k sought.now → spec.IsWarmed k self.old result self.new }
    {
        self.bucket.has_file();
        let Some(sought) = sought else {
            // no file has an item without an encoding
            return Ok(false);
        };
        let text = sought.text.as_slice();
        if self.bucket.stored(text, sought.fingerprint).is_none() {
            return Ok(false);
        }
        match self.bucket.index_of(text) {
            None => Ok(false),
            Some(index) => {
                self.take_page(index / PAGE_LEN)?;
                Ok(true)
            }
        }
    }

    /// A page, if it is kept. The order stays.
    fn page(&self, number: usize) -> Option<&[BucketEntry]>
        ensures { IfSome result (λ page. page.now ≡ spec.page_at number (rows self.now.contents)) }
    {
        let Ok(key) = u32::try_from(number) else {
            return None;
        };
        match self.pages.peek(&key) {
            None => None,
            Some(page) => Some(page.as_slice()),
        }
    }

    /// The item under a key, as the bucket finds it. The order of the pages stays.
    pub fn find(&self, key: &LedgerKey) -> Result<Option<BucketEntry>, AllocError>
        ensures { IfOk result (λ found.
            found ≡ option_map (λ change. item_of (key.now, change)) (change_at self.now.contents key.now)) }
    {
        let alloc = self.bucket.allocator();
        let Some(text) = encoded_key(alloc, key)? else {
            return self.bucket.find(key);
        };
        self.bucket.has_file();
        let Some(index) = self.bucket.index_of(text.as_slice()) else {
            return Ok(None);
        };
        match self.page(index / PAGE_LEN) {
            Some(page) => Ok(Some(page[index % PAGE_LEN].copy()?)),
            None => Ok(Some(self.bucket.item(index).read(alloc)?)),
        }
    }

    /// The numbers of the pages, the most recently used first.
    pub fn pages(&self) -> Result<Vec<u32>, AllocError>
        ensures { IfOk result (λ numbers. numbers.items ≡ self.now.numbers) }
    {
        let mut numbers = Vec::new(self.bucket.allocator());
        for (number, _) in self.pages.iter() {
            numbers.push(*number)?;
        }
        Ok(numbers)
    }
}
