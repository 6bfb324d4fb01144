//! One side of a merge.

ghost use Rattle.std.specs.Prelude.{◌≡◌, ◌+◌, length};
ghost use Rattle.bucket_core.specs.Bucket.{Contents};
ghost use Rattle.bucket_core.specs.File.{HasFile, items_of};
ghost use Rattle.bucket_core.specs.Cursor.{TakesFirst};
ghost use Rattle.bucket_merge.specs.Walk.{changes_of};
ghost use Rattle.bucket_merge.specs.Pending.{Has};

use bucket_core::{BucketCursor, BucketItem};
use std::sync::ledger::Ledger;
use steps::Steps;

/// The items of a bucket that a merge has before it: the first in hand, where there is one, and those ahead of it.
#[derive(Drop)]
pub(crate) struct Side<'a> {
    pub(crate) hand: Option<BucketItem<'a>>,
    pub(crate) ahead: BucketCursor<'a>,
}

impl<'a> Side<'a> {
    /// Takes the next item in hand.
    pub(crate) fn advance<L: Ledger>(&mut self, steps: &mut Steps<L>)
        ensures items { TakesFirst self.old.ahead self.new.hand self.new.ahead }
        ensures steps { steps.new + length self.new.ahead ≡ steps.old + length self.old.ahead }
    {
        self.hand = self.ahead.next(steps);
    }
}

/// The items of a cursor, META passed by.
pub(crate) fn side_of<'a, L: Ledger>(mut ahead: BucketCursor<'a>, steps: &mut Steps<L>) -> Side<'a>
    ensures items { (contents : Contents) → HasFile contents → ahead.entry ≡ items_of contents
        → Has result (changes_of contents) }
    ensures steps { steps.new + length result.ahead ≡ steps.old + length ahead.entry }
{
    let _meta = ahead.next(steps);
    let hand = ahead.next(steps);
    Side { hand, ahead }
}
