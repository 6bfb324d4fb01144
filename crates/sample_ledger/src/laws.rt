//! What holds of samples, over their definition.

ghost use Rattle.sample_ledger.specs.Samples as spec;

/// Each record of a sample has an encoding, of at most 16777216 bytes.
pub fn records_are_written()
    ensures { spec.RecordsAreWritten }
{}
