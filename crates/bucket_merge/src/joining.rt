//! What items under one key give, by their types.

ghost use Rattle.std.specs.Prelude.{◌≡◌};
ghost use Rattle.bucket_merge.specs.Joining as spec;

use bucket_core::BucketEntryType;

/// The deepest level, below which there is nothing.
const DEEPEST: u32 = 10;

/// What an older and a newer item under one key give.
pub(crate) enum Joining {
    /// The newer entry as LIVE.
    NewerAsLive,
    /// The newer entry as INIT.
    NewerAsInit,
    /// Nothing.
    Nothing,
    /// The newer item.
    Newer,
}

/// What an older and a newer item under one key give (CAP-0020).
pub(crate) fn joining_of(older: BucketEntryType, newer: BucketEntryType) -> Joining
    ensures { result ≡ spec.joining_of older newer }
{
    match older {
        BucketEntryType::Dead => match newer {
            BucketEntryType::Init => Joining::NewerAsLive,
            BucketEntryType::Meta => Joining::Newer,
            BucketEntryType::Live => Joining::Newer,
            BucketEntryType::Dead => Joining::Newer,
        },
        BucketEntryType::Init => match newer {
            BucketEntryType::Live => Joining::NewerAsInit,
            BucketEntryType::Dead => Joining::Nothing,
            BucketEntryType::Meta => Joining::Newer,
            BucketEntryType::Init => Joining::Newer,
        },
        BucketEntryType::Meta => Joining::Newer,
        BucketEntryType::Live => Joining::Newer,
    }
}

/// Whether an item is left out of a level: a DEAD, where nothing is below.
pub(crate) fn is_dropped(level: u32, mark: BucketEntryType) -> bool
    ensures { result ≡ spec.is_dropped level mark }
{
    match mark {
        BucketEntryType::Dead => level == DEEPEST,
        BucketEntryType::Meta => false,
        BucketEntryType::Live => false,
        BucketEntryType::Init => false,
    }
}
