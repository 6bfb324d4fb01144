//! Rows of values under keys as trees, which share what they have alike.

ghost use Rattle.std.specs.Prelude.{◌≡◌, ◌<◌, ◌++◌, ◌∷◌, [], Some, length, slice_get, option_map, IfOk};
ghost use Rattle.std.specs.Option.{option_copied};
ghost use Rattle.shared_tree.specs.Trees.{parts_of};

use crate::kept::Kept;
use std::alloc::{AllocError, Global};
use std::marker::Model;
use std::sync::Arc;

/// A row of values under keys, as a tree whose parts other rows may share. Contracts see the row.
#[cycle(tree)]
#[derive(Drop)]
pub struct Tree<K, V> {
    top: Top<K, V>,
}

#[cycle(tree)]
#[derive(Drop)]
enum Top<K, V> {
    Empty,
    Full(Arc<Fork<K, V>>),
}

/// A value under its key, between those before it and those after it.
#[cycle(tree)]
#[derive(Drop)]
pub(crate) struct Fork<K, V> {
    pub(crate) before: Tree<K, V>,
    pub(crate) kept: Kept<K, V>,
    pub(crate) after: Tree<K, V>,
    // How many values there are in all.
    len: usize,
}

impl<K, V> Model for Tree<K, V> {
    ghost use Rattle.std.specs.Prelude.{List, length};
    ghost use Rattle.std.specs.Coded.{coded×, coded_list};

    ghost Value = { List (K × V) };

    ghost coded = { coded_list (coded× K.code V.code) };

    ghost use Rattle.shared_tree.specs.Trees.{row_in, IsCounted};

    ghost view = { λ t. row_in t.top };

    ghost invariant = { λ t. IsCounted t.top };

    ghost size = { length };

    ghost use Rattle.std.proofs.Common.{arith, length-append};

    ghost size_decreases = { λ a h. Prim.grind (arith, length-append) };
}

impl<K, V> Tree<K, V> {
    /// The empty row.
    pub const fn empty() -> Tree<K, V>
        ensures { result ≡ [] }
    {
        Tree { top: Top::Empty }
    }

    /// What is on top, if the row isn't empty.
    pub(crate) fn top(&self) -> Option<&Fork<K, V>>
        ensures { self.now ≡ parts_of (option_copied result) }
    {
        match &self.top {
            Top::Empty => None,
            Top::Full(fork) => Some(fork),
        }
    }

    /// How many values there are.
    pub fn len(&self) -> usize
        ensures { result ≡ length self.now }
    {
        match &self.top {
            Top::Empty => 0,
            Top::Full(fork) => fork.len,
        }
    }

    /// The value at an index.
    pub fn entry(&self, index: usize) -> &V
        requires { index < length self.now }
        ensures { option_map (λ x. x.1) (slice_get self.now index) ≡ Some result.now }
    {
        let Some(fork) = self.top() else {
            unreachable!()
        };
        let before = fork.before.len();
        if index < before {
            fork.before.entry(index)
        } else if index == before {
            fork.kept.value()
        } else {
            fork.after.entry(index - before - 1)
        }
    }
}

impl<K: Drop, V: Drop> Tree<K, V> {
    /// The same row, for one owner more.
    pub fn share(&self) -> Result<Tree<K, V>, AllocError>
        ensures { IfOk result (λ tree. tree ≡ self.now) }
    {
        match &self.top {
            Top::Empty => Ok(Tree::empty()),
            Top::Full(fork) => Ok(Tree {
                top: Top::Full(Arc::try_clone(fork)?),
            }),
        }
    }

    /// A value between two rows, which it shares.
    pub(crate) fn fork(
        alloc: Global,
        before: &Tree<K, V>,
        kept: &Kept<K, V>,
        after: &Tree<K, V>,
    ) -> Result<Tree<K, V>, AllocError>
        ensures { IfOk result (λ tree. tree ≡ before.now ++ kept.now ∷ after.now) }
    {
        let Some(others) = before.len().checked_add(after.len()) else {
            return Err(AllocError);
        };
        let Some(len) = others.checked_add(1) else {
            return Err(AllocError);
        };
        let fork = Fork {
            before: before.share()?,
            kept: kept.share()?,
            after: after.share()?,
            len,
        };
        Ok(Tree {
            top: Top::Full(Arc::new(alloc, fork)?),
        })
    }

    /// The tree of a row, halved again and again.
    pub fn of_row(alloc: Global, row: &[Kept<K, V>]) -> Result<Tree<K, V>, AllocError>
        ensures { IfOk result (λ tree. tree ≡ row.now) }
    {
        let (earlier, others) = row.split_at(row.len() / 2);
        let Some((kept, later)) = others.split_first() else {
            return Ok(Tree::empty());
        };
        let before = Tree::of_row(alloc, earlier)?;
        let after = Tree::of_row(alloc, later)?;
        Tree::fork(alloc, &before, kept, &after)
    }
}
