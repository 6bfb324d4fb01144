//! Merges that are made beside the ledger.

ghost use Rattle.std.specs.Prelude.{◌≡◌, IfErr, IfNone, IfSome, OnOk};
ghost use Rattle.bucket_levels.specs.HandIn.{Draws, NoneWaits, TakesIn, IsRefusedFor};
ghost use Rattle.ledger_close.specs.States.{levels_at};

use crate::ledger::Ledger;
use bucket_levels::HandInBack;
use bucket_merge::{MergeJob, MergeOut};

impl Ledger {
    /// Draws the job of a merge that is pending, of the first level whose job wasn't drawn. `None` exactly where each
    /// was. It takes no memory.
    pub fn next_job(&mut self) -> Option<MergeJob>
        ensures none { IfNone result (NoneWaits (levels_at self.old)) }
        ensures kept { IfNone result (self.new ≡ self.old) }
        ensures state { self.new.state ≡ self.old.state }
        ensures caches { self.new.caches ≡ self.old.caches }
        ensures drawn { IfSome result (λ job. Draws (levels_at self.old) job (levels_at self.new)) }
    {
        self.levels.next_job()
    }

    /// Takes in a merge that was made beside the ledger: it is ready where it is the one that is pending into its
    /// level. Else it comes back, with the reason, and nothing changes. What the next ledgers are is the same either
    /// way. It takes no memory.
    pub fn hand_in(&mut self, out: MergeOut) -> Result<(), HandInBack>
        ensures taken { OnOk result (TakesIn (levels_at self.old) out (levels_at self.new)) }
        ensures state { self.new.state ≡ self.old.state }
        ensures caches { self.new.caches ≡ self.old.caches }
        ensures back { IfErr result (λ back. back.out ≡ out) }
        ensures kept { IfErr result (λ _. self.new ≡ self.old) }
        ensures refused { IfErr result (λ back. IsRefusedFor (levels_at self.old) out back.fault) }
    {
        self.levels.hand_in(out)
    }
}
