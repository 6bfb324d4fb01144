//! The entries of levels.

ghost use Rattle.std.specs.Prelude.{◌≡◌, ◌∷◌, List, length, map, option_map, IfOk};
ghost use Rattle.bucket_core.specs.Bucket.{Contents};
ghost use Rattle.bucket_levels.specs.Levels.{pair_of};
ghost use Rattle.bucket_levels.specs.Meaning.{files_of};
ghost use Rattle.bucket_levels.specs.Spills.{level_count};
ghost use Rattle.level_entries.specs.Judged.{IsJudgedBy};
ghost use Rattle.level_entries.specs.Rows.{IsNewestRow, IsRowOf};

use crate::file_row::file_row;
use crate::overlay::put_over;
use crate::placed::PlacedEntries;
use bucket_core::{Bucket, StoredItem};
use bucket_levels::LevelPair;
use std::alloc::{AllocError, Global};

/// What each key has once a newer file is put over some files, or `None` where they aren't marked well.
fn with_file<'a>(
    alloc: Global,
    row: Vec<StoredItem<'a>>,
    bucket: &'a Bucket,
) -> Result<Option<Vec<StoredItem<'a>>>, AllocError>
    requires { (files : List Contents) × IsNewestRow files row.items }
    ensures { (files : List Contents) → IsNewestRow files row.entry.items
        → IfOk result (λ next. IsRowOf (bucket.now ∷ files) (option_map (λ v. v.items) next)) }
{
    let newer = file_row(alloc, bucket)?;
    put_over(alloc, row, newer)
}

/// What each key has once both files of a level are put over some files.
fn with_pair<'a>(
    alloc: Global,
    row: Vec<StoredItem<'a>>,
    pair: &'a LevelPair,
) -> Result<Option<Vec<StoredItem<'a>>>, AllocError>
    requires { (files : List Contents) × IsNewestRow files row.items }
    ensures { (files : List Contents) → IsNewestRow files row.entry.items → IfOk result (λ next.
        IsRowOf (pair.now.curr.value ∷ pair.now.snap.value ∷ files) (option_map (λ v. v.items) next)) }
{
    match with_file(alloc, row, &pair.snap)? {
        None => Ok(None),
        Some(row) => with_file(alloc, row, &pair.curr),
    }
}

/// What each key has in the files of levels, from the first level on, or `None` where they aren't marked well.
fn row_of<'a>(
    alloc: Global,
    pairs: &'a [LevelPair],
) -> Result<Option<Vec<StoredItem<'a>>>, AllocError>
    ensures { IfOk result (λ row. IsRowOf (files_of (map pair_of pairs.now)) (option_map (λ v. v.items) row)) }
{
    match pairs {
        [] => Ok(Some(Vec::new(alloc))),
        [pair, deeper @ ..] => match row_of(alloc, deeper)? {
            None => Ok(None),
            Some(row) => with_pair(alloc, row, pair),
        },
    }
}

/// The entries that levels represent, each where it is in its file, or `None` where the levels aren't marked well.
pub fn level_entries<'a>(
    alloc: Global,
    pairs: &'a [LevelPair],
) -> Result<Option<PlacedEntries<'a>>, AllocError>
    requires { length pairs.now ≡ level_count }
    ensures { IfOk result (λ found. IsJudgedBy (map pair_of pairs.now) found) }
{
    if pairs[10].snap.version().is_some() {
        return Ok(None);
    }
    match row_of(alloc, pairs)? {
        None => Ok(None),
        Some(row) => Ok(Some(PlacedEntries::new(alloc, pairs, row.as_slice())?)),
    }
}
