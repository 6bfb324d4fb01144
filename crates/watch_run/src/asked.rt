//! What a run is asked, where contracts speak of it.

ghost use Rattle.std.specs.Prelude.{ℕ, []};
ghost use Rattle.ledger_types.specs.declared.ids.AccountId.{AccountId};

use std::marker::Brand;

/// How many readers of which account a run is asked for. Each call of a program picks it, at `Brand`.
pub(crate) trait Asked {
    ghost readers: { ℕ };

    ghost account: { AccountId };
}

impl Asked for Brand {
    ghost readers = { 0 };

    ghost account = { record { 0 = [] } };
}
