//! Laws of one account, one line or one pool that is changed.

ghost use Rattle.legal_rules.specs.ChangeLaws.{AccountChanged, LineChanged, UsesCounted, PoolChanged};

/// An account that counts and states what it did leaves nothing open.
pub fn account_changed()
    ensures { AccountChanged }
{}

/// A line that is changed leaves open the shares of a pool that it has more.
pub fn line_changed()
    ensures { LineChanged }
{}

/// A use count that is set leaves open what it fell by.
pub fn uses_counted()
    ensures { UsesCounted }
{}

/// A pool that is changed leaves open what its shares and its lines fell by.
pub fn pool_changed()
    ensures { PoolChanged }
{}
