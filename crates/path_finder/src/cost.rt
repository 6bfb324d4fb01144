//! What a path costs.

ghost use Rattle.std.specs.Prelude.{◌≡◌, IfOk, OnOk};
ghost use Rattle.path_finder.specs.Costs as spec;

use crate::query::PathQuery;
use entry_map::{Base, Entries};
use ledger_types::Asset;
use op_payment::{Carried, receive};
use sponsor_rules::Ctx;
use std::alloc::AllocError;

/// What a path costs, whatever the source and the destination hold: what has to be sent so that the amount arrives, by
/// the hops of a payment from its end back to its beginning. None where one isn't served. They are tried on a child
/// that is given up.
pub fn cost_of<B: Base>(
    entries: &mut Entries<'_, B>,
    ctx: &Ctx,
    query: &PathQuery,
    path: &[Asset],
) -> Result<Option<i64>, AllocError>
    requires { spec.IsPayable ctx.now query.now entries.old.current }
    ensures cost { IfOk result (λ cost. cost ≡ spec.cost_of ctx.now query.now entries.old.current path.now) }
    ensures map { OnOk result (entries.new ≡ entries.old) }
{
    entries.child()?;
    let amount = Carried::set_out(query.candidates.allocator(), query.amount);
    let outcome = receive(entries, ctx, &query.send, path, &query.dest, amount)?;
    entries.drop_child();
    match outcome {
        Ok(needed) => Ok(Some(needed.amount)),
        Err(_) => Ok(None),
    }
}
