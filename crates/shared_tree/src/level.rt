//! Keeping trees level: no side has more than three times what the other has, each counted with one more. That makes
//! lookups short, and no contract speaks of it.

ghost use Rattle.std.specs.Prelude.{◌≡◌, ◌++◌, ◌∷◌, IfOk, IfSome};
ghost use Rattle.std.specs.Option.{option_copied};
ghost use Rattle.shared_tree.specs.Rows.{between};

use crate::kept::Kept;
use crate::tree::{Fork, Tree};
use std::alloc::{AllocError, Global};

impl<K, V> Tree<K, V> {
    /// What is on top, where the row is too long to be beside another one.
    fn heavy_top(&self, other: &Tree<K, V>) -> Option<&Fork<K, V>>
        ensures { IfSome (option_copied result) (λ fork. self.now ≡ fork.before ++ fork.kept ∷ fork.after) }
    {
        if self.len() / 3 > other.len() {
            self.top()
        } else {
            None
        }
    }

    /// What is on top, where the row has more than twice what another one has.
    fn inner_top(&self, outer: &Tree<K, V>) -> Option<&Fork<K, V>>
        ensures { IfSome (option_copied result) (λ fork. self.now ≡ fork.before ++ fork.kept ∷ fork.after) }
    {
        if self.len() - self.len() / 2 > outer.len() {
            self.top()
        } else {
            None
        }
    }
}

impl<K: Drop, V: Drop> Tree<K, V> {
    /// What is on top of a row that is too heavy before a value, with that value and what is after it.
    fn shifted_after(
        alloc: Global,
        heavy: &Fork<K, V>,
        kept: &Kept<K, V>,
        after: &Tree<K, V>,
    ) -> Result<Tree<K, V>, AllocError>
        ensures { IfOk result (λ tree.
            tree ≡ (heavy.now.before ++ heavy.now.kept ∷ heavy.now.after) ++ kept.now ∷ after.now) }
    {
        match heavy.after.inner_top(&heavy.before) {
            None => {
                let later = Tree::fork(alloc, &heavy.after, kept, after)?;
                Tree::fork(alloc, &heavy.before, &heavy.kept, &later)
            }
            Some(inner) => {
                let earlier = Tree::fork(alloc, &heavy.before, &heavy.kept, &inner.before)?;
                let later = Tree::fork(alloc, &inner.after, kept, after)?;
                Tree::fork(alloc, &earlier, &inner.kept, &later)
            }
        }
    }

    /// What is on top of a row that is too heavy after a value, with that value and what is before it.
    fn shifted_before(
        alloc: Global,
        before: &Tree<K, V>,
        kept: &Kept<K, V>,
        heavy: &Fork<K, V>,
    ) -> Result<Tree<K, V>, AllocError>
        ensures { IfOk result (λ tree.
            tree ≡ before.now ++ kept.now ∷ (heavy.now.before ++ heavy.now.kept ∷ heavy.now.after)) }
    {
        match heavy.before.inner_top(&heavy.after) {
            None => {
                let earlier = Tree::fork(alloc, before, kept, &heavy.before)?;
                Tree::fork(alloc, &earlier, &heavy.kept, &heavy.after)
            }
            Some(inner) => {
                let earlier = Tree::fork(alloc, before, kept, &inner.before)?;
                let later = Tree::fork(alloc, &inner.after, &heavy.kept, &heavy.after)?;
                Tree::fork(alloc, &earlier, &inner.kept, &later)
            }
        }
    }

    /// A value between two rows, one of which may be a little too heavy.
    pub(crate) fn leveled(
        alloc: Global,
        before: &Tree<K, V>,
        kept: &Kept<K, V>,
        after: &Tree<K, V>,
    ) -> Result<Tree<K, V>, AllocError>
        ensures { IfOk result (λ tree. tree ≡ before.now ++ kept.now ∷ after.now) }
    {
        if let Some(heavy) = before.heavy_top(after) {
            return Tree::shifted_after(alloc, heavy, kept, after);
        }
        if let Some(heavy) = after.heavy_top(before) {
            return Tree::shifted_before(alloc, before, kept, heavy);
        }
        Tree::fork(alloc, before, kept, after)
    }

    /// A value between two rows of any lengths.
    fn linked(
        alloc: Global,
        before: &Tree<K, V>,
        kept: &Kept<K, V>,
        after: &Tree<K, V>,
    ) -> Result<Tree<K, V>, AllocError>
        ensures { IfOk result (λ tree. tree ≡ before.now ++ kept.now ∷ after.now) }
    {
        if let Some(heavy) = before.heavy_top(after) {
            let later = Tree::linked(alloc, &heavy.after, kept, after)?;
            return Tree::leveled(alloc, &heavy.before, &heavy.kept, &later);
        }
        if let Some(heavy) = after.heavy_top(before) {
            let earlier = Tree::linked(alloc, before, kept, &heavy.before)?;
            return Tree::leveled(alloc, &earlier, &heavy.kept, &heavy.after);
        }
        Tree::fork(alloc, before, kept, after)
    }

    /// Two rows of any lengths, one after the other.
    fn chained(
        alloc: Global,
        before: &Tree<K, V>,
        after: &Tree<K, V>,
    ) -> Result<Tree<K, V>, AllocError>
        ensures { IfOk result (λ tree. tree ≡ before.now ++ after.now) }
    {
        let Some(earlier) = before.top() else {
            return after.share();
        };
        let Some(later) = after.top() else {
            return before.share();
        };
        if before.len() < after.len() {
            let prefix = Tree::chained(alloc, before, &later.before)?;
            Tree::linked(alloc, &prefix, &later.kept, &later.after)
        } else {
            let back = Tree::chained(alloc, &earlier.after, after)?;
            Tree::linked(alloc, &earlier.before, &earlier.kept, &back)
        }
    }

    /// Two rows of any lengths, with a value between them or without one.
    pub(crate) fn joined(
        alloc: Global,
        before: &Tree<K, V>,
        middle: Option<&Kept<K, V>>,
        after: &Tree<K, V>,
    ) -> Result<Tree<K, V>, AllocError>
        ensures { IfOk result (λ tree. tree ≡ before.now ++ between (option_copied middle.entry) after.now) }
    {
        match middle {
            None => Tree::chained(alloc, before, after),
            Some(kept) => Tree::linked(alloc, before, kept, after),
        }
    }
}
