//! The files of an image, as buckets and from buckets.

ghost use Rattle.std.specs.Prelude.{◌≡◌, ◌≤◌, ◌⊎◌, ◌↔◌, [], ◌∷◌, ◌++◌, List, length, map, IfOk, IfErr, OnOk, IsTrue};
ghost use Rattle.bucket_levels.specs.Pairs.{Pair};
ghost use Rattle.bucket_levels.specs.Levels.{pair_of};
ghost use Rattle.bucket_levels.specs.Size.{file_total};
ghost use Rattle.bucket_levels.specs.Spills.{level_count};
ghost use Rattle.bucket_core.specs.File.{file_of, HasFile};
ghost use Rattle.close_rules.specs.State.{max_file_total};
ghost use Rattle.close_rules.specs.Images.{AreFilesOf};
ghost use Rattle.ledger_close.specs.ImageFiles as spec;

use bucket_core::laws::no_fault_in_a_file;
use bucket_core::{Bucket, BucketFault};
use bucket_levels::{LevelPair, Levels};
use close_rules::{ImageFault, ImageRule};
use item_list::ItemList;
use std::alloc::{AllocError, Global};
use std::sync::Arc;

/// The most bytes of the files of a ledger's levels.
const MAX_FILE_TOTAL: u128 = 536870912;

/// The fault of an image with a file that has this one.
fn fault_of(wrong: BucketFault) -> ImageFault
    ensures { result ≡ spec.fault_of wrong }
{
    match wrong {
        BucketFault::NoMemory => ImageFault::NoMemory,
        BucketFault::Xdr { at: _, kind: _ } => ImageFault::BadImage {
            rule: ImageRule::Bucket,
        },
        BucketFault::NoMeta { at: _ } => ImageFault::BadImage {
            rule: ImageRule::Bucket,
        },
        BucketFault::SecondMeta { at: _ } => ImageFault::BadImage {
            rule: ImageRule::Bucket,
        },
        BucketFault::Order { at: _ } => ImageFault::BadImage {
            rule: ImageRule::Bucket,
        },
    }
}

/// The bucket whose file this is.
fn read_bucket(file: ItemList<u8>) -> Result<Arc<Bucket>, ImageFault>
    ensures ok { IfOk result (λ bucket. spec.IsFileOf file bucket.value) }
    ensures bad { IfErr result (λ wrong. spec.IsFileFault wrong (spec.IsNoFile file)) }
{
    no_fault_in_a_file();
    match Bucket::read(file.into_vec()) {
        Ok(bucket) => {
            bucket.cursor();
            Ok(bucket)
        }
        Err(wrong) => Err(fault_of(wrong)),
    }
}

/// The two files of a level.
fn read_pair(curr: ItemList<u8>, snap: ItemList<u8>) -> Result<LevelPair, ImageFault>
    ensures curr { IfOk result (λ pair. spec.IsFileOf curr pair.curr.value) }
    ensures snap { IfOk result (λ pair. spec.IsFileOf snap pair.snap.value) }
    ensures bad { IfErr result (λ wrong. spec.IsFileFault wrong (spec.IsNoFile curr ⊎ spec.IsNoFile snap)) }
{
    let curr = match read_bucket(curr) {
        Ok(bucket) => bucket,
        Err(fault) => return Err(fault),
    };
    match read_bucket(snap) {
        Ok(snap) => Ok(LevelPair { curr, snap }),
        Err(fault) => Err(fault),
    }
}

/// Puts the files of a level after those of others.
pub(crate) fn push_pair(pairs: &mut Vec<LevelPair>, pair: LevelPair) -> Result<(), AllocError>
    ensures { OnOk result (pairs.new.items ≡ pairs.old.items ++ pair ∷ []) }
{
    pairs.push(pair)?;
    Ok(())
}

/// The levels whose files these are, curr and snap of each from the first one on. The bytes of each file are moved.
pub(crate) fn read_pairs(
    alloc: Global,
    mut files: Vec<ItemList<u8>>,
) -> Result<Vec<LevelPair>, ImageFault>
    requires { length files.items ≡ 22 }
    ensures ok { IfOk result (λ pairs. AreFilesOf (map pair_of pairs.items) files.items) }
    ensures bad { IfErr result
        (λ wrong. spec.IsFileFault wrong ((levels : List Pair) → AreFilesOf levels files.items → ⊥)) }
{
    let mut pairs = Vec::with_capacity(alloc, 11)?;
    for level in 0..11usize {
        let curr = files.remove(0);
        let snap = files.remove(0);
        match read_pair(curr, snap) {
            Ok(pair) => push_pair(&mut pairs, pair)?,
            Err(fault) => return Err(fault),
        }
    }
    Ok(pairs)
}

/// Whether the files of levels aren't too long together.
pub(crate) fn do_files_fit(pairs: &[LevelPair]) -> bool
    requires { length pairs.now ≤ 11 }
    ensures { IsTrue result ↔ (file_total (map pair_of pairs.now) ≤ max_file_total) }
{
    bucket_levels::file_total(pairs) <= MAX_FILE_TOTAL
}

/// Puts a copy of a bucket's file after others.
fn push_file(
    alloc: Global,
    files: &mut Vec<ItemList<u8>>,
    bucket: &Bucket,
) -> Result<(), AllocError>
    ensures pushed { OnOk result (files.new.items ≡ files.old.items ++ file_of bucket.now ∷ []) }
    ensures file { HasFile bucket.now }
{
    bucket.cursor();
    files.push(ItemList::from_slice(alloc, bucket.bytes())?)?;
    Ok(())
}

/// Copies of the files of levels, curr and snap of each from the first one on.
pub(crate) fn copy_files(
    alloc: Global,
    levels: &Levels,
) -> Result<ItemList<ItemList<u8>>, AllocError>
    requires { length levels.now.pairs ≡ level_count }
    ensures { IfOk result (λ files. AreFilesOf levels.now.pairs files) }
{
    let mut files = Vec::with_capacity(alloc, 22)?;
    for level in 0..11u32 {
        let pair = levels.pair(level);
        push_file(alloc, &mut files, &pair.curr)?;
        push_file(alloc, &mut files, &pair.snap)?;
    }
    Ok(ItemList::from_vec(files))
}
