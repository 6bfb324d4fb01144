//! Pre-authorised signers, which a transaction uses up.

ghost use Rattle.std.specs.Prelude.{◌≡◌, OnOk};
ghost use Rattle.entry_map.specs.Undo.{with_current};
ghost use Rattle.tx_apply.specs.Transaction as spec;

use crate::signing::source_of;
use entry_map::{Base, Entries};
use ledger_types::{AccountId, Hash};
use op_types::Operation;
use sponsor_rules::{Ctx, remove_preauth};
use std::alloc::AllocError;

/// Removes the pre-authorised signers of a hash from the sources of operations.
#[tactic(auto, unfolding(crate::specs::Transaction::map_without_preauths))]
fn remove_preauths<B: Base>(
    entries: &mut Entries<'_, B>,
    ctx: &Ctx,
    hash: &Hash,
    source: &AccountId,
    operations: &[Operation],
) -> Result<(), AllocError>
    ensures { OnOk result (entries.new ≡ with_current entries.old
        (spec.map_without_preauths hash.now source.now operations.now entries.old.current)) }
{
    match operations {
        [] => Ok(()),
        [first, others @ ..] => {
            remove_preauth(entries, ctx, &source_of(source, first), hash)?;
            remove_preauths(entries, ctx, hash, source, others)
        }
    }
}

/// Removes the pre-authorised signers of a hash from a transaction's source and from those of its operations.
pub(crate) fn remove_used<B: Base>(
    entries: &mut Entries<'_, B>,
    ctx: &Ctx,
    hash: &Hash,
    source: &AccountId,
    operations: &[Operation],
) -> Result<(), AllocError>
    ensures { OnOk result (entries.new ≡ with_current entries.old
        (spec.map_without_used hash.now source.now operations.now entries.old.current)) }
{
    remove_preauth(entries, ctx, source, hash)?;
    remove_preauths(entries, ctx, hash, source, operations)
}
