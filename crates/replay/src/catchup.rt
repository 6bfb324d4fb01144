//! The command `catchup`, but for the line on standard error.

ghost use Rattle.stored_outcome.specs.run_streams.Seen.{seen};
ghost use Rattle.replay.specs.Starting.{CaughtUp};

use crate::closes::{Closing, Records, follow};
use crate::crew::Nobody;
use crate::nowhere::Nowhere;
use crate::starting::{Started, start};
use outside::{MemVolume, Sink, Source, Steps};
use std::alloc::Global;
use std::sync::ledger::Ledger as Count;
use stored_outcome::run_outcome::Status;

/// Starts from the image at the start of the input and closes a ledger for each record after it.
pub(crate) fn catch_up<I: Source, O: Sink, L: Count>(
    alloc: Global,
    passphrase: &str,
    input: &mut I,
    out: &mut O,
    steps: &mut Steps<L>,
) -> Status
    ensures { CaughtUp passphrase.now (seen I.left I.faults input.old input.new)
        (seen O.taken O.faults out.old out.new) result }
{
    let mut ahead = Vec::new(alloc);
    match start(alloc, passphrase, input, &mut ahead) {
        Ok(Started { ledger, at }) => {
            let mut closing = Closing {
                ledger,
                keeper: Nowhere,
            };
            let at = at as u128;
            follow(
                alloc,
                &Nobody,
                &mut (),
                &mut closing,
                &mut MemVolume::new(alloc),
                Records { at, ahead },
                input,
                out,
                steps,
            )
        }
        Err(end) => end,
    }
}
