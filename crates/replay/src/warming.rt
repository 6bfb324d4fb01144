//! The pages of entries that a close made or changed, taken for the closes after it.

ghost use Rattle.std.specs.Prelude.{◌≡◌, ◌++◌, map, IfOk, OnOk};
ghost use Rattle.replay.specs.Warming.{IsPartlyWarmed, changed_keys};
ghost use Rattle.ledger_types.specs.Keys.{key_of};

use ledger_types::{LedgerEntry, LedgerKey};
use std::alloc::{AllocError, Global};
use worker_merges::ledger_close::{Batch, Ledger};

/// A ledger takes the pages of fewer keys than these at once.
const KEY_LIMIT: usize = 4_294_967_296;

/// Adds the keys of entries.
fn push_keys(keys: &mut Vec<LedgerKey>, entries: &[LedgerEntry]) -> Result<(), AllocError>
    ensures { OnOk result (keys.new.items ≡ keys.old.items ++ map key_of entries.now) }
{
    for entry in entries {
        keys.push(entry.key()?)?;
    }
    Ok(())
}

/// The keys of the entries that a close made, and then of those that it changed.
pub(crate) fn batch_keys(alloc: Global, batch: &Batch) -> Result<Vec<LedgerKey>, AllocError>
    ensures { IfOk result (λ keys. keys.items ≡ changed_keys batch.now) }
{
    let mut keys = Vec::new(alloc);
    push_keys(&mut keys, batch.init.as_slice())?;
    push_keys(&mut keys, batch.live.as_slice())?;
    Ok(keys)
}

/// Takes the pages of keys into the ledger's caches. What it can't take is passed over, since the ledger goes on
/// without.
pub(crate) fn warm_keys(ledger: &mut Ledger, keys: &[LedgerKey])
    ensures state { ledger.new.state ≡ ledger.old.state }
    ensures pages { IsPartlyWarmed keys.now ledger.old.caches ledger.new.caches }
{
    if keys.len() < KEY_LIMIT {
        let _passed_over = ledger.warm(keys);
    }
}
