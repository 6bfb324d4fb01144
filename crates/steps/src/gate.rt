//! A point that a worker passes before each merge.

/// What a worker passes before each merge that it makes, of level `level` and begun at ledger `seq`. It reports
/// nothing: a test uses it to hold a worker.
pub trait Gate: Sync {
    /// Returns once the worker may go on.
    fn pass(&self, level: u32, seq: u32);
}

/// A gate that holds nobody.
#[derive(Drop)]
pub struct OpenGate;

impl Gate for OpenGate {
    fn pass(&self, _level: u32, _seq: u32) {}
}
