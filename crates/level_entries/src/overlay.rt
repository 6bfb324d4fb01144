//! A row of items put over an older one.

ghost use Rattle.std.specs.Prelude.{◌≡◌, ◌<◌, ◌++◌, ◌∷◌, [], drop, length, option_map, IfOk, OnOk};
ghost use Rattle.entry_table.specs.Rows.{IsRising, IsOverlaid};
ghost use Rattle.level_entries.specs.Rows.{IsPutOver, IsPushedFirst};

use crate::judge::may_all_follow;
use bucket_core::StoredItem;
use std::alloc::{AllocError, Global};
use std::cmp::Ordering;

/// Puts an item at the end of a row.
fn push<'a>(item: &StoredItem<'a>, row: &mut Vec<StoredItem<'a>>) -> Result<(), AllocError>
    ensures { OnOk result (row.new.items ≡ row.old.items ++ item.now ∷ []) }
{
    row.push(item.again())?;
    Ok(())
}

/// Puts all items of a row at the end of another one.
fn push_all<'a>(items: &[StoredItem<'a>], row: &mut Vec<StoredItem<'a>>) -> Result<(), AllocError>
    ensures { OnOk result (row.new.items ≡ row.old.items ++ items.now) }
{
    for item in items {
        push(item, row)?;
    }
    Ok(())
}

/// Puts the first item that a row or a newer one has from two indices on at the end of a third, the newer one of two
/// under one key. Gives where both are left.
fn push_first<'a>(
    older: &[StoredItem<'a>],
    index: usize,
    newer: &[StoredItem<'a>],
    turn: usize,
    row: &mut Vec<StoredItem<'a>>,
) -> Result<(usize, usize), AllocError>
    requires index { index < length older.now }
    requires turn { turn < length newer.now }
    requires older { IsRising (drop index older.now) }
    requires newer { IsRising (drop turn newer.now) }
    ensures { IfOk result (λ left. IsPushedFirst older.now index newer.now turn row.old.items row.new.items left) }
{
    let item = &newer[turn];
    let under = &older[index];
    match under.order(item.key()) {
        Ordering::Less => {
            push(under, row)?;
            Ok((index + 1, turn))
        }
        Ordering::Equal => {
            push(item, row)?;
            Ok((index + 1, turn + 1))
        }
        Ordering::Greater => {
            push(item, row)?;
            Ok((index, turn + 1))
        }
    }
}

/// A row with a newer one put over it, in one pass: under a key of both is what the newer one has.
fn overlay<'a>(
    alloc: Global,
    older: &[StoredItem<'a>],
    newer: &[StoredItem<'a>],
) -> Result<Vec<StoredItem<'a>>, AllocError>
    requires older { IsRising older.now }
    requires newer { IsRising newer.now }
    ensures { IfOk result (λ all. IsOverlaid older.now newer.now all.items) }
{
    let mut all = Vec::with_capacity(alloc, older.len().saturating_add(newer.len()))?;
    let mut index = 0;
    let mut turn = 0;
    while index < older.len() && turn < newer.len() {
        let left = push_first(older, index, newer, turn, &mut all)?;
        index = left.0;
        turn = left.1;
    }
    push_all(older.split_at(index).1, &mut all)?;
    push_all(newer.split_at(turn).1, &mut all)?;
    Ok(all)
}

/// A row with a newer one put over it, or `None` where the newer items may not all follow what is there. A row that an
/// empty one is put over, or that is put over an empty one, stays as it is.
pub(crate) fn put_over<'a>(
    alloc: Global,
    row: Vec<StoredItem<'a>>,
    newer: Vec<StoredItem<'a>>,
) -> Result<Option<Vec<StoredItem<'a>>>, AllocError>
    requires older { IsRising row.items }
    requires newer { IsRising newer.items }
    ensures { IfOk result (λ next. IsPutOver row.entry.items newer.entry.items (option_map (λ v. v.items) next)) }
{
    if newer.is_empty() {
        return Ok(Some(row));
    }
    if row.is_empty() {
        return Ok(Some(newer));
    }
    if !may_all_follow(row.as_slice(), newer.as_slice()) {
        return Ok(None);
    }
    Ok(Some(overlay(alloc, row.as_slice(), newer.as_slice())?))
}
