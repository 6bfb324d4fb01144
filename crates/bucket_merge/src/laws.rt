//! What holds of merges.

ghost use Rattle.std.specs.Prelude.{ℕ};
ghost use Rattle.bucket_core.specs.Bucket.{Contents};
ghost use Rattle.bucket_core.specs.File.{HasFile};
ghost use Rattle.bucket_merge.specs.Merge.{IsMerge};
ghost use Rattle.bucket_merge.specs.Walk.{merge_of};

/// One pass over two buckets in the order of keys makes their merge, which has a file.
pub fn one_pass_merges()
    ensures merge { (level : ℕ) (older : Contents) (newer : Contents)
        → IsMerge level older newer (merge_of level older newer) }
    ensures file { (level : ℕ) (older : Contents) (newer : Contents)
        → HasFile older → HasFile newer → HasFile (merge_of level older newer) }
{}
