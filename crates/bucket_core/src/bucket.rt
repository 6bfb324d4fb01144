//! Buckets.

ghost use Rattle.std.specs.Prelude.{◌≡◌, ◌<◌, ℕ, None, Some, IfOk, IfSome, MatchResult, option_map, length, slice_get};
ghost use Rattle.ledger_types.specs.declared.bucket.BucketEntry.TheVariants as item;
ghost use Rattle.ledger_types.specs.declared.key.LedgerKey.{LedgerKey as AKey};
ghost use Rattle.bucket_items.specs.Item.{IsItemText};
ghost use Rattle.bucket_items.specs.KeyText.{IsKeyText};
ghost use Rattle.bucket_core.specs.Bucket.{Contents, change_at, version_of};
ghost use Rattle.bucket_core.specs.File.{HasFile, file_of, item_of, items_of};
ghost use Rattle.bucket_core.specs.Faults.{first_fault, JudgedBy};
ghost use Rattle.bucket_core.specs.Filter as filter;
ghost use Rattle.bucket_core.specs.Hash.{file_hash};
ghost use Rattle.bucket_core.specs.Index.{above, index_of, rows};
ghost use Rattle.bucket_core.specs.Reading.{contents_of, IsFile};

use crate::cursor::BucketCursor;
use crate::fault::BucketFault;
use crate::filter::{fingerprint, may_contain};
use crate::hints::hinted;
use crate::index::{filter_of, find_stored, index_of, offsets_of, stored_above, stored_at};
use crate::judge::judge;
use crate::key_encoding::encoded_key;
use crate::stored::StoredItem;
use hash_ids::hash;
use ledger_types::{BucketEntry, Hash, LedgerKey};
use std::alloc::{AllocError, Global};
use std::marker::Model;
use std::sync::Arc;
use xdr_core::Cursor;

/// A bucket: nothing, or a protocol version and what became of the entries under some keys. It keeps its file with the
/// file's hash, and contracts see what the file holds.
#[derive(Drop)]
pub struct Bucket {
    bytes: Vec<u8>,
    /// The hash of the file, and none where the bucket was made to be merged.
    hash: Option<Hash>,
    /// The offset in the file of each item but META, in their order.
    offsets: Vec<u32>,
    /// A filter of their keys.
    words: Vec<u64>,
    /// Hints at their indices.
    hints: Vec<u32>,
}

impl Model for Bucket {
    ghost use Rattle.bucket_core.specs.Bucket.{Contents};
    ghost use Rattle.bucket_core.specs.Code.{contents_code};
    ghost use Rattle.bucket_core.specs.Reading.{contents_of};
    ghost use Rattle.bucket_core.specs.Index.{IsKept};

    ghost Value = { Contents };

    ghost coded = { contents_code };

    ghost view = { λ b. contents_of b.bytes.items };

    ghost invariant = { λ b. IsKept b.bytes.items b.hash b.offsets.items b.words.items };
}

impl Bucket {
    /// The empty bucket, whose file is empty.
    pub fn empty(alloc: Global) -> Result<Arc<Bucket>, AllocError>
        ensures { IfOk result (λ bucket. bucket.value ≡ None) }
    {
        let bucket = shared(alloc, bucket_of(Vec::new(alloc))?)?;
        Ok(bucket)
    }

    /// The bucket whose file this is, or the first fault of the bytes in reading order.
    pub fn read(bytes: Vec<u8>) -> Result<Arc<Bucket>, BucketFault>
        ensures file { IfOk result (λ bucket. file_of bucket.value ≡ bytes.items) }
        ensures fault { JudgedBy (first_fault bytes.items) result }
    {
        let alloc = *bytes.allocator();
        judge(alloc, bytes.as_slice())?;
        let bucket = shared(alloc, bucket_of(bytes)?)?;
        Ok(bucket)
    }

    /// The bucket of a file that is known to be one: it isn't read.
    pub fn of_file(file: Vec<u8>) -> Result<Arc<Bucket>, AllocError>
        requires { (contents : Contents) × HasFile contents × (file.items ≡ file_of contents) }
        ensures { (contents : Contents) → HasFile contents → file.items ≡ file_of contents
            → IfOk result (λ bucket. bucket.value ≡ contents) }
    {
        let alloc = *file.allocator();
        let bucket = shared(alloc, bucket_of(file)?)?;
        Ok(bucket)
    }

    /// The bucket of a file that is known to be one, made to be merged: it is hashed only as its hash is asked for.
    pub fn of_file_to_merge(file: Vec<u8>) -> Result<Arc<Bucket>, AllocError>
        requires { (contents : Contents) × HasFile contents × (file.items ≡ file_of contents) }
        ensures { (contents : Contents) → HasFile contents → file.items ≡ file_of contents
            → IfOk result (λ bucket. bucket.value ≡ contents) }
    {
        let alloc = *file.allocator();
        let bucket = shared(alloc, unhashed(file)?)?;
        Ok(bucket)
    }

    /// The same bucket, to be kept: with the hash of its file.
    pub fn hashed(&self) -> Result<Arc<Bucket>, AllocError>
        ensures { IfOk result (λ bucket. bucket.value ≡ self.now) }
    {
        let alloc = self.allocator();
        let file = Vec::from_slice(alloc, self.bytes.as_slice())?;
        let bucket = shared(alloc, bucket_of(file)?)?;
        Ok(bucket)
    }

    /// Where the bucket takes its memory.
    pub fn allocator(&self) -> Global {
        *self.bytes.allocator()
    }

    /// The file.
    pub fn bytes(&self) -> &[u8]
        ensures { result.now ≡ file_of self.now }
    {
        self.bytes.as_slice()
    }

    /// The hash of the file, SHA-256 (FIPS 180-4), or zeros where the bucket is empty.
    pub fn hash(&self) -> Hash
        ensures { result ≡ file_hash (file_of self.now) }
    {
        match self.hash {
            Some(hash) => hash,
            None => hash_of_file(self.bytes.as_slice()),
        }
    }

    /// The protocol version, `None` of the empty bucket alone.
    pub fn version(&self) -> Option<u32>
        ensures { result ≡ version_of self.now }
    {
        match self.cursor().take_first() {
            Some(meta) => version_in(meta.bytes),
            None => None,
        }
    }

    /// The item that says what became of the entry under a key, `None` exactly where the bucket says nothing of it.
    pub fn find(&self, key: &LedgerKey) -> Result<Option<BucketEntry>, AllocError>
        ensures { IfOk result
            (λ found. found ≡ option_map (λ change. item_of (key.now, change)) (change_at self.now key.now)) }
    {
        let alloc = *self.bytes.allocator();
        match encoded_key(alloc, key)? {
            Some(text) => self.find_by_text(text.as_slice()),
            // no file has an item without an encoding
            None => Ok(None),
        }
    }

    /// The same, by the text of the key.
    pub fn find_by_text(&self, text: &[u8]) -> Result<Option<BucketEntry>, AllocError>
        ensures { (k : AKey) → IsKeyText text.now k → IfOk result
            (λ found. found ≡ option_map (λ change. item_of (k, change)) (change_at self.now k)) }
    {
        match self.stored(text, fingerprint(text)) {
            None => Ok(None),
            Some(item) => Ok(Some(item.read(*self.bytes.allocator())?)),
        }
    }

    /// The item under a key where it is in the file, by the text of the key and its fingerprint. It takes no memory.
    pub fn stored(&self, text: &[u8], fingerprint: u64) -> Option<StoredItem<'_>>
        requires { fingerprint ≡ filter.fingerprint text.now }
        ensures { (k : AKey) → IsKeyText text.now k → option_map (λ x. x.1) result
            ≡ option_map (λ change. item_of (k, change)) (change_at self.now k) }
    {
        if self.offsets.as_slice().is_empty() {
            return None;
        }
        if !may_contain(self.words.as_slice(), fingerprint) {
            return None;
        }
        let hint = hinted(self.hints.as_slice(), fingerprint);
        find_stored(self.bytes.as_slice(), self.offsets.as_slice(), hint, text)
    }

    /// The item with the least key above a key, by the text of the key. With the key's fingerprint it is found at once
    /// where the bucket has an item under the key itself.
    pub fn above(&self, text: &[u8], fingerprint: u64) -> Option<StoredItem<'_>>
        ensures above { (k : AKey) → IsKeyText text.now k → result ≡ above k (rows self.now) }
        ensures file { HasFile self.now }
    {
        if self.offsets.as_slice().is_empty() {
            return None;
        }
        let hint = hinted(self.hints.as_slice(), fingerprint);
        stored_above(self.bytes.as_slice(), self.offsets.as_slice(), hint, text)
    }

    /// How many items exist before the one under a key, META left out, by the text of the key; `None` exactly where the
    /// bucket says nothing of the key.
    pub fn index_of(&self, text: &[u8]) -> Option<usize>
        ensures index { (k : AKey) → IsKeyText text.now k → result ≡ index_of k (rows self.now) }
        ensures within { IfSome result (λ i. i < length (rows self.now)) }
    {
        index_of(self.bytes.as_slice(), self.offsets.as_slice(), text)
    }

    /// How many items there are, META left out.
    pub fn len(&self) -> usize
        ensures { result ≡ length (rows self.now) }
    {
        self.offsets.as_slice().len()
    }

    /// The item with an index among those but META.
    pub fn item(&self, index: usize) -> StoredItem<'_>
        requires { index < length (rows self.now) }
        ensures { slice_get (rows self.now) index ≡ Some result }
    {
        let offsets = self.offsets.as_slice();
        stored_at(self.bytes.as_slice(), offsets[index])
    }

    /// What the bucket says has a file. It does nothing.
    pub fn has_file(&self)
        ensures { HasFile self.now }
    {
        let _items = self.cursor();
    }

    /// The items of the file from the first one on.
    pub fn cursor(&self) -> BucketCursor<'_>
        ensures items { result ≡ items_of self.now }
        ensures file { HasFile self.now }
    {
        BucketCursor::new(self.bytes.as_slice())
    }
}

/// The bucket that keeps a file, hashed.
fn bucket_of(bytes: Vec<u8>) -> Result<Bucket, AllocError>
    requires { IsFile bytes.items }
    ensures { IfOk result (λ bucket. bucket ≡ contents_of bytes.items) }
{
    let alloc = *bytes.allocator();
    let offsets = offsets_of(alloc, bytes.as_slice())?;
    let (words, hints) = filter_of(alloc, bytes.as_slice(), offsets.as_slice())?;
    let hash = hash_of_file(bytes.as_slice());
    Ok(Bucket {
        bytes,
        hash: Some(hash),
        offsets,
        words,
        hints,
    })
}

/// The bucket that keeps a file, not hashed yet.
fn unhashed(bytes: Vec<u8>) -> Result<Bucket, AllocError>
    requires { IsFile bytes.items }
    ensures { IfOk result (λ bucket. bucket ≡ contents_of bytes.items) }
{
    let alloc = *bytes.allocator();
    let offsets = offsets_of(alloc, bytes.as_slice())?;
    let (words, hints) = filter_of(alloc, bytes.as_slice(), offsets.as_slice())?;
    Ok(Bucket {
        bytes,
        hash: None,
        offsets,
        words,
        hints,
    })
}

/// A bucket that has several owners.
fn shared(alloc: Global, bucket: Bucket) -> Result<Arc<Bucket>, AllocError>
    ensures { IfOk result (λ shared. shared.value ≡ bucket) }
{
    Ok(Arc::new(alloc, bucket)?)
}

/// The hash of a file.
fn hash_of_file(file: &[u8]) -> Hash
    ensures { result ≡ file_hash file.now }
{
    if file.is_empty() {
        return Hash([0; 32]);
    }
    hash(file)
}

/// The version that META states, from its text.
fn version_in(text: &[u8]) -> Option<u32>
    ensures { (v : ℕ) → IsItemText text.now (item.Meta v) → result ≡ Some v }
{
    let mut ahead = Cursor::new(text);
    match ahead.i32() {
        Ok(_) => ahead.u32().ok(),
        Err(_) => None,
    }
}
