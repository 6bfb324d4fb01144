//! The items of a file under their keys.

ghost use Rattle.std.specs.Prelude.{IfOk};
ghost use Rattle.level_entries.specs.Rows.{IsFileRow};

use bucket_core::{Bucket, StoredItem};
use std::alloc::{AllocError, Global};

/// The row of what a file says.
pub(crate) fn file_row<'a>(
    alloc: Global,
    bucket: &'a Bucket,
) -> Result<Vec<StoredItem<'a>>, AllocError>
    ensures { IfOk result (λ row. IsFileRow bucket.now row.items) }
{
    bucket.has_file();
    let mut row = Vec::with_capacity(alloc, bucket.len())?;
    for index in 0..bucket.len() {
        row.push(bucket.item(index))?;
    }
    Ok(row)
}
