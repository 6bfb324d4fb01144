//! How the ledger after each close is published.

ghost use Rattle.std.specs.Prelude.{◌≡◌, ◌++◌, ◌∷◌, [], ℕ, List, OnOk};
ghost use Rattle.std.specs.Arc.{arc_value};
ghost use Rattle.run_outcome.specs.close_rules.State.{ClosingState};
ghost use Rattle.run_outcome.specs.WatchRun.{reader_text};
ghost use Rattle.ledger_readers.specs.Published.{published, reader_count};
ghost use Rattle.watch_run.specs.Watching.{published_states};

use crate::asked::Asked;
use ledger_close::{DetailedClose, Ledger, View};
use ledger_readers::{Publication, Publisher};
use reports::Gather;
use run_outcome::Status;
use std::alloc::{AllocError, Global};
use std::marker::PhantomData;
use std::sync::atomic::{AtomicBool, Ordering};
use std::sync::{Arc, Wait};

/// The right to publish ledgers to readers.
pub(crate) trait PublishLedger {
    // The states that it published.
    ghost states: { Self → List ClosingState };

    ghost readers: { Self → ℕ };

    /// Publishes a ledger, unless memory is refused. It may wait for readers.
    fn publish_ledger<R: Wait>(&mut self, rt: &R, view: Arc<View>) -> Result<(), AllocError>
        ensures states { OnOk result (states self.new ≡ states self.old ++ arc_value view ∷ []) }
        ensures readers { readers self.new ≡ readers self.old };
}

impl<J: Publication> PublishLedger for Publisher<View, J> {
    ghost use Rattle.ledger_readers.specs.Published.{published, reader_count};

    ghost states = { λ p. published p };

    ghost readers = { λ p. reader_count p };

    fn publish_ledger<R: Wait>(&mut self, rt: &R, view: Arc<View>) -> Result<(), AllocError> {
        self.publish(rt, view)
    }
}

/// Publishes the ledger after each close, until memory is refused, to a reader too.
pub(crate) struct Publishing<'r, R, P: PublishLedger, W: Asked> {
    pub(crate) rt: &'r R,
    pub(crate) publisher: P,
    pub(crate) refused: &'r AtomicBool,
    pub(crate) of: PhantomData<W>,
    ghost count: { P.readers publisher ≡ W.readers },
}

impl<'r, R: Wait, P: PublishLedger, W: Asked> Gather for Publishing<'r, R, P, W> {
    ghost use Rattle.std.specs.Prelude.{◌≡◌};
    ghost use Rattle.run_outcome.specs.WatchRun.{reader_text};
    ghost use Rattle.watch_run.specs.Watching.{published_states};

    ghost kind = { reader_text W.readers W.account };

    ghost gathers = { λ p start closes. P.states p.publisher ≡ published_states start closes };

    fn gather(
        &mut self,
        _alloc: Global,
        ledger: &mut Ledger,
        close: DetailedClose,
    ) -> Result<(), Status> {
        let DetailedClose { prepared, .. } = close;
        ledger.install(prepared);
        if self.refused.load(Ordering::SeqCst) {
            return Err(Status::NoMemory);
        }
        let Ok(view) = ledger.view() else {
            return Err(Status::NoMemory);
        };
        match self.publisher.publish_ledger(self.rt, view) {
            Ok(()) => Ok(()),
            Err(_) => Err(Status::NoMemory),
        }
    }
}
