//! A run in memory alone.

ghost use Rattle.std.specs.Prelude.{◌≡◌, ◌≤◌, ℕ, List, [], Ok, IfOk, OnOk, length};
ghost use Rattle.outside.specs.Streams.{HasCause};
ghost use Rattle.stored_outcome.specs.close_rules.State.{ClosingState};
ghost use Rattle.stored_outcome.specs.close_rules.Close.{PreparedClose, IsClose};
ghost use Rattle.outside.specs.Disk.{Disk, Runs};
ghost use Rattle.replay.specs.Keeping as spec;

use crate::keeper::{KeepFault, Keeper};
use outside::{Failed, Volume};
use std::alloc::{AllocError, Global};
use worker_merges::ledger_close::Ledger;

/// Keeps nothing.
#[derive(Drop)]
pub(crate) struct Nowhere;

impl Keeper for Nowhere {
    type Piece = ();

    ghost stores = { ⊥ };

    ghost held = { λ piece. [] };

    ghost works = { λ k. Unit {0} };

    ghost keeps = { λ k d s. Unit {0} };

    fn hold(&self, alloc: Global, bytes: &[u8]) -> Result<(), AllocError> {
        let _ = alloc;
        let _ = bytes;
        Ok(())
    }

    fn keep<V: Volume>(&mut self, vol: &mut V, piece: ()) -> Result<(), Failed> {
        let _ = vol;
        let _ = piece;
        Ok(())
    }

    fn settle<V: Volume>(
        &mut self,
        alloc: Global,
        vol: &mut V,
        ledger: &Ledger,
    ) -> Result<(), KeepFault> {
        let _ = alloc;
        let _ = vol;
        let _ = ledger;
        Ok(())
    }
}
