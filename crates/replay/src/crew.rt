//! Who makes merges beside the thread that closes ledgers.

ghost use Rattle.std.specs.Prelude.{◌≡◌};

use worker_merges::ledger_close::Ledger;

/// Makes merges beside the closing thread, or nobody does.
pub(crate) trait Crew {
    /// What the closing thread has of it.
    type Side: Drop;

    // The side is of this crew.
    ghost has: { Self → Self.Side → Type 0 };

    /// Hands in the merges that are finished. What the ledger's state is stays, and the pages that it keeps.
    fn adopt(&self, side: &mut Self::Side, ledger: &mut Ledger)
        requires { has self.now side.old }
        ensures has { has self.now side.new }
        ensures state { ledger.new.state ≡ ledger.old.state }
        ensures caches { ledger.new.caches ≡ ledger.old.caches };

    /// Posts the merges that have begun. What the ledger's state is stays, and the pages that it keeps.
    fn post_due(&self, side: &mut Self::Side, ledger: &mut Ledger)
        requires { has self.now side.old }
        ensures has { has self.now side.new }
        ensures state { ledger.new.state ≡ ledger.old.state }
        ensures caches { ledger.new.caches ≡ ledger.old.caches };
}

/// Nobody: the closing thread makes each merge as it is due.
#[derive(Drop)]
pub(crate) struct Nobody;

impl Crew for Nobody {
    type Side = ();

    ghost has = { λ crew side. Unit {0} };

    fn adopt(&self, side: &mut (), ledger: &mut Ledger) {
        let _ = side;
        let _ = ledger;
    }

    fn post_due(&self, side: &mut (), ledger: &mut Ledger) {
        let _ = side;
        let _ = ledger;
    }
}
