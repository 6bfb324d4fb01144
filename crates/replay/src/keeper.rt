//! What keeps the records of closes beside a ledger: a store, or nothing.

ghost use Rattle.std.specs.Prelude.{◌≡◌, ◌≤◌, ℕ, List, Ok, IsErr, IfOk, OnOk, length};
ghost use Rattle.outside.specs.Streams.{HasCause};
ghost use Rattle.stored_outcome.specs.close_rules.State.{ClosingState};
ghost use Rattle.stored_outcome.specs.close_rules.Close.{PreparedClose, IsClose};
ghost use Rattle.outside.specs.Disk.{Disk, Runs};
ghost use Rattle.replay.specs.Keeping as spec;

use outside::{Failed, Volume};
use std::alloc::{AllocError, Global};
use worker_merges::ledger_close::Ledger;

/// Why what is due after a close wasn't done.
#[derive(Clone, Copy)]
pub(crate) enum KeepFault {
    /// A call on the volume failed.
    DiskFault,
    /// Memory was refused.
    NoMemory,
}

/// Keeps the records of closes upon a volume, or nothing.
pub(crate) trait Keeper {
    /// A record, with all memory that keeping it takes.
    type Piece: Drop;

    // Inhabited where the records are kept.
    ghost stores: { Type 0 };

    // The bytes of a record.
    ghost held: { Self.Piece → List ℕ };

    // No call has failed so far.
    ghost works: { Self → Type 0 };

    // What is kept upon this volume yields this state, whatever a crash leaves.
    ghost keeps: { Self → Disk → ClosingState → Type 0 };

    /// Takes all memory that keeping the record will take.
    fn hold(&self, alloc: Global, bytes: &[u8]) -> Result<Self::Piece, AllocError>
        requires { length bytes.now ≤ 16777216 }
        ensures { stores → IfOk result (λ piece. held piece ≡ bytes.now) };

    /// Keeps a record that closes the ledger. It takes no memory. From `Ok` on each crash leaves it.
    fn keep<V: Volume>(&mut self, vol: &mut V, piece: Self::Piece) -> Result<(), Failed>
        requires works { works self.old }
        requires ready { stores → V.reports
            → (s : ClosingState) × (closed : PreparedClose)
            × spec.Ready (keeps self.old (V.disk vol.old) s) (V.disk vol.old) s
            × IsClose s (held piece) (Ok closed) }
        ensures kept { stores → V.reports → (s : ClosingState) (closed : PreparedClose)
            → spec.Ready (keeps self.old (V.disk vol.old) s) (V.disk vol.old) s
            → IsClose s (held piece) (Ok closed)
            → OnOk result (spec.Ready (keeps self.new (V.disk vol.new) closed.state) (V.disk vol.new)
            closed.state) }
        ensures runs { stores → V.reports → (s : ClosingState) (closed : PreparedClose)
            → spec.Ready (keeps self.old (V.disk vol.old) s) (V.disk vol.old) s
            → IsClose s (held piece) (Ok closed)
            → Runs (spec.OpensEither s closed.state) (V.disk vol.old) (V.disk vol.new) }
        ensures works { OnOk result (works self.new) }
        ensures stores { IsErr result → stores }
        ensures cause { HasCause (V.faults vol.old) (V.faults vol.new) result };

    /// Does what is due after the close of this ledger, whose record is kept. What is kept stays.
    fn settle<V: Volume>(
        &mut self,
        alloc: Global,
        vol: &mut V,
        ledger: &Ledger,
    ) -> Result<(), KeepFault>
        requires works { works self.old }
        requires ready { stores → V.reports
            → spec.Ready (keeps self.old (V.disk vol.old) ledger.now.state) (V.disk vol.old) ledger.now.state }
        ensures kept { stores → V.reports → spec.UnlessDisk result (spec.Ready (keeps self.new (V.disk vol.new)
            ledger.now.state) (V.disk vol.new) ledger.now.state) }
        ensures runs { stores → V.reports
            → Runs (spec.OpensEither ledger.now.state ledger.now.state) (V.disk vol.old) (V.disk vol.new) }
        ensures works { OnOk result (works self.new) }
        ensures later { V.faults vol.old ≤ V.faults vol.new }
        ensures cause { spec.IsCaused stores (V.faults vol.old) (V.faults vol.new) result };
}
