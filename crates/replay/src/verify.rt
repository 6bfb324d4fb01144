//! The command `verify`.

ghost use Rattle.std.specs.Prelude.{◌≡◌};
ghost use Rattle.stored_outcome.specs.run_streams.Seen.{seen};
ghost use Rattle.stored_outcome.specs.run_outcome.Statuses.{status_code};
ghost use Rattle.stored_outcome.specs.run_outcome.VerifyRun.{DidVerify};
ghost use Rattle.stored_outcome.specs.run_outcome.declared.status.Status.{Status};

use outside::{Sink, Source};
use reports::{report, verify_history};
use std::alloc::Global;
use stored_outcome::run_outcome::Status;

/// Runs `verify`, with its line on standard error.
pub(crate) fn verify_reported<I: Source, O: Sink, E: Sink>(
    alloc: Global,
    input: &mut I,
    out: &mut O,
    err: &mut E,
) -> Status
    ensures { DidVerify (seen I.left I.faults input.old input.new)
        (seen O.taken O.faults out.old out.new) (seen E.taken E.faults err.old err.new) result }
{
    let end = verify_history(alloc, input, out);
    report(alloc, end, err)
}

/// Runs `verify`: it reads the text that `history` writes, which is the entire input, and prints how many ledgers its
/// chain has and the hash of the last, or its first fault. It answers the exit status of the process.
pub fn do_verify<I: Source, O: Sink, E: Sink>(
    alloc: Global,
    input: &mut I,
    out: &mut O,
    err: &mut E,
) -> u8
    ensures { (end : Status) × ((result ≡ status_code end)
        × DidVerify (seen I.left I.faults input.old input.new)
        (seen O.taken O.faults out.old out.new) (seen E.taken E.faults err.old err.new) end) }
{
    verify_reported(alloc, input, out, err).code()
}
