//! What is gathered of the closes of a run, and the text that it becomes.

ghost use Rattle.std.specs.Prelude.{◌≡◌, List, OnOk};
ghost use Rattle.run_outcome.specs.run_streams.Seen.{seen};
ghost use Rattle.run_outcome.specs.close_rules.State.{ClosingState};
ghost use Rattle.run_outcome.specs.Closes.{RecordClose};
ghost use Rattle.run_outcome.specs.FileRun.{FileKind};
ghost use Rattle.reports.specs.Gathering as spec;

use ledger_close::{DetailedClose, Ledger};
use outside::Sink;
use run_outcome::Status;
use std::alloc::Global;

/// Gathers the closes of a run.
pub trait Gather {
    // What the text says of the closes.
    ghost kind: { FileKind };

    // What was gathered is that of these closes after this state.
    ghost gathers: { Self → ClosingState → List RecordClose → Type 0 };

    /// Gathers a close, which the ledger takes. It ends the run where the close is too large for those before it, or
    /// memory was refused.
    fn gather(
        &mut self,
        alloc: Global,
        ledger: &mut Ledger,
        close: DetailedClose,
    ) -> Result<(), Status>
        requires { (c : RecordClose) × spec.IsDetailed ledger.old.state close c }
        ensures gathered { (c : RecordClose) → spec.IsDetailed ledger.old.state close c
            → spec.IsGatheredOrNot kind (gathers self.old) (gathers self.new) c result }
        ensures taken { OnOk result (ledger.new.state ≡ close.prepared.state) };
}

/// Writes a text of what was gathered at the end of the input.
pub trait GatherText: Gather {
    /// Writes the text, where the sink takes it.
    fn write<O: Sink>(&self, alloc: Global, out: &mut O) -> Status
        ensures { spec.WroteGathered Self.kind (Self.gathers self.now) (seen O.taken O.faults out.old out.new) result };
}
