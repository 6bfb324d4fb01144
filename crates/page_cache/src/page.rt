//! The pages of a bucket: its items after META, by 64.

ghost use Rattle.std.specs.Prelude.{◌≡◌, ◌*◌, ◌<◌, length, IfOk};
ghost use Rattle.bucket_core.specs.Index.{rows};
ghost use Rattle.page_cache.specs.Pages as spec;

use bucket_core::Bucket;
use item_list::ItemList;
use ledger_types::BucketEntry;
use std::alloc::AllocError;

/// How many items a page has, but for the last one.
pub(crate) const PAGE_LEN: usize = 64;

/// The items of a page.
pub(crate) fn read_page(bucket: &Bucket, number: usize) -> Result<ItemList<BucketEntry>, AllocError>
    requires { number * 64 < length (rows bucket.now) }
    ensures { IfOk result (λ page. page ≡ spec.page_at number (rows bucket.now)) }
{
    let alloc = bucket.allocator();
    let len = bucket.len();
    let first = number * PAGE_LEN;
    let count = PAGE_LEN.min(len - first);
    let mut page = ItemList::new(alloc);
    for i in 0..count {
        page.push(bucket.item(first + i).read(alloc)?)?;
    }
    Ok(page)
}
