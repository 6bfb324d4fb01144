//! Rows of shared values in the order of their keys.

ghost use Rattle.std.specs.Prelude.{◌≡◌, ◌<◌, ◌++◌, ◌∷◌, [], length, IfOk, OnOk};
ghost use Rattle.entry_table.specs.Rows.{IsRising, IsOverlaid, IsPassed};

use crate::kept::Kept;
use std::alloc::{AllocError, Global};
use std::cmp::Ordering;

/// Puts one owner more of a value at the end of a row.
fn push<V: Drop>(value: &Kept<V>, row: &mut Vec<Kept<V>>) -> Result<(), AllocError>
    ensures { OnOk result (row.new.items ≡ row.old.items ++ value.now ∷ []) }
{
    row.push(value.share()?)?;
    Ok(())
}

/// Puts all values of a row at the end of another one.
fn push_all<V: Drop>(values: &[Kept<V>], row: &mut Vec<Kept<V>>) -> Result<(), AllocError>
    ensures { OnOk result (row.new.items ≡ row.old.items ++ values.now) }
{
    for value in values {
        push(value, row)?;
    }
    Ok(())
}

/// Puts the first value of a row or of a newer one at the end of a third, the newer one of two under one key. Gives
/// what is left of both.
fn push_first<'a, V: Drop>(
    older: &'a [Kept<V>],
    newer: &'a [Kept<V>],
    row: &mut Vec<Kept<V>>,
) -> Result<(&'a [Kept<V>], &'a [Kept<V>]), AllocError>
    requires ahead { 0 < length older.now }
    requires older { IsRising older.now }
    requires newer { IsRising newer.now }
    ensures { IfOk result (λ left.
        IsPassed older.now newer.now left.0.now left.1.now row.old.items row.new.items) }
{
    let (value, others) = match older.split_first() {
        None => return Ok((older, newer)),
        Some(pair) => pair,
    };
    let (turn, later) = match newer.split_first() {
        None => {
            push(value, row)?;
            return Ok((others, newer));
        }
        Some(pair) => pair,
    };
    match value.key().cmp(turn.key()) {
        Ordering::Less => {
            push(value, row)?;
            Ok((others, newer))
        }
        Ordering::Equal => {
            push(turn, row)?;
            Ok((others, later))
        }
        Ordering::Greater => {
            push(turn, row)?;
            Ok((older, later))
        }
    }
}

/// A row with a newer one put over it, in one pass: a key of both has what the newer one has.
pub fn overlay<V: Drop>(
    alloc: Global,
    older: &[Kept<V>],
    newer: &[Kept<V>],
) -> Result<Vec<Kept<V>>, AllocError>
    requires older { IsRising older.now }
    requires newer { IsRising newer.now }
    ensures { IfOk result (λ all. IsOverlaid older.now newer.now all.items) }
{
    let mut all = Vec::with_capacity(alloc, older.len())?;
    let mut ahead = older;
    let mut turns = newer;
    while ahead.len() > 0 {
        let left = push_first(ahead, turns, &mut all)?;
        ahead = left.0;
        turns = left.1;
    }
    push_all(turns, &mut all)?;
    Ok(all)
}
