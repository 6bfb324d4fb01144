//! Taking what is in hand into a merge.

ghost use Rattle.std.specs.Prelude.{◌≡◌, ◌+◌, ◌<◌, ◌++◌, ◌∷◌, [], List, OnOk, length, option_and_then};
ghost use Rattle.bucket_merge.specs.Merge.{kept, joined};
ghost use Rattle.bucket_merge.specs.Walk.{Pair, put};
ghost use Rattle.bucket_merge.specs.Taking.{first_key, Nearer};
ghost use Rattle.bucket_merge.specs.Pending as spec;

use crate::side::Side;
use crate::write::{write_joined, write_kept};
use bucket_items::order;
use std::alloc::AllocError;
use std::cmp::Ordering;
use std::sync::ledger::Ledger;
use steps::Steps;

/// How the keys in hand compare. A key comes before none.
fn first_in_hand(older: &Side<'_>, newer: &Side<'_>) -> Ordering
    ensures { (old : List Pair) (new : List Pair) → spec.Has older.now old → spec.Has newer.now new
        → result ≡ first_key old new }
{
    match older.hand {
        Some(a) => match newer.hand {
            Some(b) => order(a.key, b.key),
            None => Ordering::Less,
        },
        None => match newer.hand {
            Some(_) => Ordering::Greater,
            None => Ordering::Equal,
        },
    }
}

/// Writes the item in hand, where it is kept, and takes the next one in hand.
fn take_kept<L: Ledger>(
    level: u32,
    side: &mut Side<'_>,
    file: &mut Vec<u8>,
    steps: &mut Steps<L>,
) -> Result<(), AllocError>
    requires { (x : Pair) × (xs : List Pair) × spec.Has side.old (x ∷ xs) }
    ensures items { (x : Pair) (xs : List Pair) → spec.Has side.old (x ∷ xs) → OnOk result (spec.Has side.new xs
        × (file.new.items ≡ file.old.items ++ spec.records_of (put x.0 (kept level x.1) []))) }
    ensures steps { steps.new + length side.new.ahead ≡ steps.old + length side.old.ahead }
{
    let item = match side.hand {
        Some(item) => item,
        None => return Ok(()),
    };
    write_kept(level, &item, file)?;
    side.advance(steps);
    Ok(())
}

/// Writes what both items in hand give, and takes the next ones in hand.
fn take_joined<L: Ledger>(
    level: u32,
    older: &mut Side<'_>,
    newer: &mut Side<'_>,
    file: &mut Vec<u8>,
    steps: &mut Steps<L>,
) -> Result<(), AllocError>
    requires { (x : Pair) × (y : Pair) × (xs : List Pair) × (ys : List Pair)
        × spec.Has older.old (x ∷ xs) × spec.Has newer.old (y ∷ ys) × (x.0 ≡ y.0) }
    ensures items { (x : Pair) (y : Pair) (xs : List Pair) (ys : List Pair)
        → spec.Has older.old (x ∷ xs) → spec.Has newer.old (y ∷ ys) → x.0 ≡ y.0
        → OnOk result (spec.Has older.new xs × spec.Has newer.new ys × (file.new.items
        ≡ file.old.items ++ spec.records_of (put y.0 (option_and_then (kept level) (joined x.1 y.1)) []))) }
    ensures steps { steps.new + length older.new.ahead + length newer.new.ahead
        ≡ steps.old + length older.old.ahead + length newer.old.ahead }
{
    let old = match older.hand {
        Some(item) => item,
        None => return Ok(()),
    };
    let new = match newer.hand {
        Some(item) => item,
        None => return Ok(()),
    };
    write_joined(level, &old, &new, file)?;
    older.advance(steps);
    newer.advance(steps);
    Ok(())
}

/// Takes the least key in hand into the merge.
pub(crate) fn take_first_key<L: Ledger>(
    level: u32,
    older: &mut Side<'_>,
    newer: &mut Side<'_>,
    file: &mut Vec<u8>,
    steps: &mut Steps<L>,
) -> Result<(), AllocError>
    requires { (old : List Pair) × (new : List Pair)
        × spec.Has older.old old × spec.Has newer.old new × (0 < length old + length new) }
    ensures items { (old : List Pair) (new : List Pair) → spec.Has older.old old → spec.Has newer.old new
        → 0 < length old + length new
        → OnOk result (Nearer level old new file.old.items file.new.items older.new newer.new) }
    ensures steps { steps.new + length older.new.ahead + length newer.new.ahead
        ≡ steps.old + length older.old.ahead + length newer.old.ahead }
{
    match first_in_hand(older, newer) {
        Ordering::Less => take_kept(level, older, file, steps),
        Ordering::Equal => take_joined(level, older, newer, file, steps),
        Ordering::Greater => take_kept(level, newer, file, steps),
    }
}
