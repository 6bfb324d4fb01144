//! Looking a key up.

ghost use Rattle.std.specs.Prelude.{◌≡◌};
ghost use Rattle.std.specs.Option.{option_copied};
ghost use Rattle.std.specs.FinMap.{find};
ghost use Rattle.shared_tree.specs.Rows.{IsRising, first_above};

use crate::kept::Kept;
use crate::tree::Tree;
use std::cmp::Ordering;

impl<K: Ord, V> Tree<K, V> {
    /// The value under a key.
    pub fn find(&self, key: &K) -> Option<&V>
        requires { IsRising K.cmp self.now }
        ensures { option_copied result ≡ find K.cmp key.now self.now }
    {
        let Some(fork) = self.top() else {
            return None;
        };
        match fork.kept.order(key) {
            Ordering::Less => fork.after.find(key),
            Ordering::Equal => Some(fork.kept.value()),
            Ordering::Greater => fork.before.find(key),
        }
    }

    /// The first value above a key, under its own key.
    pub fn above(&self, key: &K) -> Option<&Kept<K, V>>
        requires { IsRising K.cmp self.now }
        ensures { option_copied result ≡ first_above K.cmp key.now self.now }
    {
        let Some(fork) = self.top() else {
            return None;
        };
        match fork.kept.order(key) {
            Ordering::Less => fork.after.above(key),
            Ordering::Equal => fork.after.above(key),
            Ordering::Greater => match fork.before.above(key) {
                None => Some(&fork.kept),
                Some(kept) => Some(kept),
            },
        }
    }
}
