//! The end of an input.

ghost use Rattle.std.specs.Prelude.{MatchResult};
ghost use Rattle.run_outcome.specs.run_streams.Seen.{seen};
ghost use Rattle.reports.specs.EndOfInput.{IsEnded, IsUnended};

use outside::{Failed, Source};
use run_outcome::Status;

/// Sees to it that nothing follows what ends at an offset of the input. Bytes may be ahead.
pub fn end_input<I: Source>(at: usize, input: &mut I, ahead: &[u8]) -> Result<(), Status>
    ensures { MatchResult result (λ _. IsEnded ahead.now (seen I.left I.faults input.old input.new))
        (λ end. IsUnended at ahead.now (seen I.left I.faults input.old input.new) end) }
{
    let followed = Status::BadInput { at: at as u128 };
    if !ahead.is_empty() {
        return Err(followed);
    }
    let mut byte = [0; 1];
    match input.read(&mut byte) {
        Ok(0) => Ok(()),
        Ok(_) => Err(followed),
        Err(Failed) => Err(Status::ReadFault),
    }
}
