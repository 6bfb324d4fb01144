//! Whether a file's items may follow what older files say.

ghost use Rattle.std.specs.Prelude.{◌<◌, ◌↔◌, drop, length, IsTrue};
ghost use Rattle.entry_table.specs.Rows.{IsRising};
ghost use Rattle.level_entries.specs.Rows.{MayAllFollow, MayFollowBy, IsJudgedFirst};

use bucket_core::StoredItem;
use bucket_items::BucketEntryType;
use std::cmp::Ordering;

/// Whether an item may follow the newest older one under its key: INIT follows DEAD, LIVE and DEAD follow no DEAD.
fn may_follow(item: BucketEntryType, older: BucketEntryType) -> bool
    ensures { IsTrue result ↔ MayFollowBy item older }
{
    match item {
        BucketEntryType::Init => match older {
            BucketEntryType::Live => false,
            BucketEntryType::Init => false,
            _ => true,
        },
        _ => match older {
            BucketEntryType::Live => true,
            BucketEntryType::Init => true,
            _ => false,
        },
    }
}

/// Where two rows are left after the least key that they have from two indices on, or `None` where a newer item may not
/// follow the older one under that key.
fn judge_first(
    older: &[StoredItem<'_>],
    index: usize,
    newer: &[StoredItem<'_>],
    turn: usize,
) -> Option<(usize, usize)>
    requires older { IsRising (drop index older.now) }
    requires newer { IsRising (drop turn newer.now) }
    requires index { index < length older.now }
    requires turn { turn < length newer.now }
    ensures { IsJudgedFirst older.now index newer.now turn result }
{
    let item = &newer[turn];
    let under = &older[index];
    match under.order(item.key()) {
        Ordering::Less => Some((index + 1, turn)),
        Ordering::Equal => {
            if may_follow(item.mark(), under.mark()) {
                Some((index + 1, turn + 1))
            } else {
                None
            }
        }
        Ordering::Greater => Some((index, turn + 1)),
    }
}

/// Whether each item of a newer row may follow what an older one has under its key, in one pass.
pub(crate) fn may_all_follow(older: &[StoredItem<'_>], newer: &[StoredItem<'_>]) -> bool
    requires older { IsRising older.now }
    requires newer { IsRising newer.now }
    ensures { IsTrue result ↔ MayAllFollow older.now newer.now }
{
    let mut index = 0;
    let mut turn = 0;
    while index < older.len() && turn < newer.len() {
        let Some(left) = judge_first(older, index, newer, turn) else {
            return false;
        };
        index = left.0;
        turn = left.1;
    }
    true
}
