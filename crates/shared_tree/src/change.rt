//! What is to be under a key.

ghost use Rattle.std.specs.Prelude.{◌≡◌, None, Some};
ghost use Rattle.std.specs.Option.{option_copied};
ghost use Rattle.shared_tree.specs.Rows.{kept_by};

use crate::kept::Kept;
use std::marker::Model;

/// A change of what is under a key. Contracts see the key, and the value that is to be there, if any.
#[derive(Drop)]
pub struct Change<'a, K, V> {
    key: &'a K,
    kept: Option<&'a Kept<K, V>>,
}

impl<'a, K, V> Model for Change<'a, K, V> {
    ghost use Rattle.std.specs.Prelude.{◌≡◌, Option, option_map, IfSome};
    ghost use Rattle.std.specs.Coded.{coded×, coded_option};

    ghost Value = { K × Option V };

    ghost coded = { coded× K.code (coded_option V.code) };

    ghost view = { λ c. (c.key.now, option_map (λ kept. kept.now.1) c.kept) };

    ghost invariant = { λ c. IfSome c.kept (λ kept. kept.now.0 ≡ c.key.now) };
}

impl<'a, K, V> Change<'a, K, V> {
    /// A value is put under its key.
    pub fn put(kept: &'a Kept<K, V>) -> Change<'a, K, V>
        ensures { result ≡ (kept.now.0, Some kept.now.1) }
    {
        Change {
            key: kept.key(),
            kept: Some(kept),
        }
    }

    /// What is under a key is taken away.
    pub fn take(key: &'a K) -> Change<'a, K, V>
        ensures { result ≡ (key.now, None) }
    {
        Change { key, kept: None }
    }

    /// The key.
    pub fn key(&self) -> &K
        ensures { result.now ≡ self.now.0 }
    {
        self.key
    }

    /// The value that is put, under its key.
    pub(crate) fn kept(&self) -> Option<&Kept<K, V>>
        ensures { option_copied result ≡ kept_by self.now }
    {
        self.kept
    }
}
