//! The entry that exists next in the files of levels.

ghost use Rattle.std.specs.Prelude.{◌≡◌, map, IfOk};
ghost use Rattle.ledger_types.specs.declared.key.LedgerKey.{LedgerKey as AKey};
ghost use Rattle.bucket_core.specs.Bucket.{change_at};
ghost use Rattle.bucket_items.specs.KeyText.{IsKeyText};
ghost use Rattle.bucket_levels.specs.Levels.{pair_of};
ghost use Rattle.bucket_levels.specs.Meaning.{files_of, changes_of};
ghost use Rattle.level_pages.specs.Newest.{first_of};
ghost use Rattle.level_pages.specs.Next as spec;

use bucket_core::{Bucket, StoredItem};
use bucket_levels::LevelPair;
use std::cmp::Ordering;

/// The one of two items whose key is less, and the newer one of two under one key.
fn lesser<'a>(
    newer: Option<StoredItem<'a>>,
    older: Option<StoredItem<'a>>,
) -> Option<StoredItem<'a>>
    ensures { (f : spec.Says) (g : spec.Says) (k : AKey) → spec.IsLeast f k newer.entry → spec.IsLeast g k older.entry
        → spec.IsLeast (spec.in_turn f g) k result }
{
    match newer {
        None => older,
        Some(a) => match older {
            None => Some(a),
            Some(b) => match a.order(b.key()) {
                Ordering::Greater => Some(b),
                _ => Some(a),
            },
        },
    }
}

/// The first item of a bucket above a key, by the key's text, with the key's fingerprint.
fn above_in<'a>(bucket: &'a Bucket, text: &[u8], fingerprint: u64) -> Option<StoredItem<'a>>
    ensures { (k : AKey) → IsKeyText text.now k → spec.IsLeast (change_at bucket.now) k result }
{
    bucket.above(text, fingerprint)
}

/// The newest item of the least key above one in the files of levels, by the key's text. With the key's fingerprint it
/// is found at once in a file that has an item under the key itself.
pub fn least_above<'a>(
    pairs: &'a [LevelPair],
    text: &[u8],
    fingerprint: u64,
) -> Option<StoredItem<'a>>
    ensures { (k : AKey) → IsKeyText text.now k
        → spec.IsLeast (λ q. first_of (changes_of (files_of (map pair_of pairs.now)) q)) k result }
{
    match pairs {
        [] => None,
        [pair, deeper @ ..] => lesser(
            above_in(&pair.curr, text, fingerprint),
            lesser(
                above_in(&pair.snap, text, fingerprint),
                least_above(deeper, text, fingerprint),
            ),
        ),
    }
}
