//! A seat at a counted queue.

ghost use Rattle.std.specs.Prelude.{◌≡◌};
ghost use Rattle.counted_queue.specs.Seats.{HasCountedNone};

use crossbeam_queue::Pass;
use http_server::Log;

/// The right to steps on a counted queue, with what its holder knows (its view), and with what the queue answered to
/// it. The counts take no bytes: only proofs read them, so that none can be full.
#[derive(Drop)]
pub struct Seat<T, V> {
    pub(crate) pass: Pass<T, V>,
    // The looks that found nothing.
    pub(crate) empty_looks: Log<(), ()>,
    // Those of them that were begun after the queue was closed.
    pub(crate) last_looks: Log<(), ()>,
    // The values that found no slot.
    pub(crate) refused: Log<T, ()>,
}

impl<T, V> Seat<T, V> {
    /// The seat of a pass. It has counted nothing.
    pub(crate) fn new(pass: Pass<T, V>) -> Seat<T, V>
        ensures { (result.pass ≡ pass) × HasCountedNone result }
    {
        Seat {
            pass,
            empty_looks: Log::new(),
            last_looks: Log::new(),
            refused: Log::new(),
        }
    }
}
