//! Rows with changes. What is changed is made anew from the top down to it, and the rest is shared.

ghost use Rattle.std.specs.Prelude.{◌≡◌, [], None, Some, IfOk};
ghost use Rattle.std.specs.Option.{option_copied};
ghost use Rattle.shared_tree.specs.Rows.{IsRising, changed, all_changed, all_put, count_below, AreDivided};

use crate::change::Change;
use crate::kept::Kept;
use crate::tree::Tree;
use std::alloc::{AllocError, Global};
use std::cmp::Ordering;

/// How many changes are of keys below one. It halves the changes at each step.
fn count_below<K: Ord, V>(changes: &[Change<'_, K, V>], key: &K) -> usize
    requires { IsRising K.cmp changes.now }
    ensures { result ≡ count_below K.cmp key.now changes.now }
{
    let (earlier, others) = changes.split_at(changes.len() / 2);
    let Some((change, later)) = others.split_first() else {
        return 0;
    };
    match change.key().cmp(key) {
        Ordering::Less => earlier.len() + 1 + count_below(later, key),
        Ordering::Equal => earlier.len(),
        Ordering::Greater => count_below(earlier, key),
    }
}

/// Changes by how their keys compare with that of a value: those below it, what is to take the place of the value, and
/// those above it.
fn divided<'a, K: Ord, V>(
    kept: &'a Kept<K, V>,
    changes: &'a [Change<'a, K, V>],
) -> (
    &'a [Change<'a, K, V>],
    Option<&'a Kept<K, V>>,
    &'a [Change<'a, K, V>],
)
    requires { IsRising K.cmp changes.now }
    ensures { AreDivided K.cmp kept.now changes.now result.0.now (option_copied result.1) result.2.now }
{
    let (earlier, others) = changes.split_at(count_below(changes, kept.key()));
    let Some((change, later)) = others.split_first() else {
        return (earlier, Some(kept), others);
    };
    match kept.order(change.key()) {
        Ordering::Equal => (earlier, change.kept(), later),
        Ordering::Less => (earlier, Some(kept), others),
        Ordering::Greater => (earlier, Some(kept), others),
    }
}

impl<K: Drop, V: Drop> Tree<K, V> {
    /// The row of what changes put.
    fn of_changes(alloc: Global, changes: &[Change<'_, K, V>]) -> Result<Tree<K, V>, AllocError>
        ensures { IfOk result (λ tree. tree ≡ all_put changes.now) }
    {
        let (earlier, others) = changes.split_at(changes.len() / 2);
        let Some((change, later)) = others.split_first() else {
            return Ok(Tree::empty());
        };
        let before = Tree::of_changes(alloc, earlier)?;
        let after = Tree::of_changes(alloc, later)?;
        Tree::joined(alloc, &before, change.kept(), &after)
    }
}

impl<K: Ord + Drop, V: Drop> Tree<K, V> {
    /// The row with changes of keys in their order. It costs what the changes cost, and not what the row has.
    pub fn with_changes(
        &self,
        alloc: Global,
        changes: &[Change<'_, K, V>],
    ) -> Result<Tree<K, V>, AllocError>
        requires row { IsRising K.cmp self.now }
        requires changes { IsRising K.cmp changes.now }
        ensures { IfOk result (λ tree. tree ≡ all_changed K.cmp changes.now self.now) }
    {
        if changes.is_empty() {
            return self.share();
        }
        let Some(fork) = self.top() else {
            return Tree::of_changes(alloc, changes);
        };
        let (earlier, middle, later) = divided(&fork.kept, &*changes);
        let before = fork.before.with_changes(alloc, earlier)?;
        let after = fork.after.with_changes(alloc, later)?;
        Tree::joined(alloc, &before, middle, &after)
    }

    /// The row with one change. The way down to its key is made anew.
    fn with_change(
        &self,
        alloc: Global,
        change: &Change<'_, K, V>,
    ) -> Result<Tree<K, V>, AllocError>
        requires { IsRising K.cmp self.now }
        ensures { IfOk result (λ tree. tree ≡ changed K.cmp change.now.0 change.now.1 self.now) }
    {
        let Some(fork) = self.top() else {
            let none = Tree::empty();
            return Tree::joined(alloc, &none, change.kept(), &none);
        };
        match fork.kept.order(change.key()) {
            Ordering::Less => {
                let after = fork.after.with_change(alloc, change)?;
                Tree::leveled(alloc, &fork.before, &fork.kept, &after)
            }
            Ordering::Equal => Tree::joined(alloc, &fork.before, change.kept(), &fork.after),
            Ordering::Greater => {
                let before = fork.before.with_change(alloc, change)?;
                Tree::leveled(alloc, &before, &fork.kept, &fork.after)
            }
        }
    }

    /// The row with a value put under its key.
    pub fn put(&self, alloc: Global, kept: &Kept<K, V>) -> Result<Tree<K, V>, AllocError>
        requires { IsRising K.cmp self.now }
        ensures { IfOk result (λ tree. tree ≡ changed K.cmp kept.now.0 (Some kept.now.1) self.now) }
    {
        self.with_change(alloc, &Change::put(kept))
    }

    /// The row without what is under a key.
    pub fn take(&self, alloc: Global, key: &K) -> Result<Tree<K, V>, AllocError>
        requires { IsRising K.cmp self.now }
        ensures { IfOk result (λ tree. tree ≡ changed K.cmp key.now None self.now) }
    {
        self.with_change(alloc, &Change::take(key))
    }
}
