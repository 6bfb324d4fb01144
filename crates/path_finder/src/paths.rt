//! What a path costs, and which one costs the least.

ghost use Rattle.std.specs.Prelude.{◌≡◌, ◌+◌, ◌^◌, ◌<◌, ◌≤ℤ◌, pos, length, IfOk, OnOk};
ghost use Rattle.std.specs.List.{IsDistinct};
ghost use Rattle.trade_cross.specs.Crossable.{IsCrossable};
ghost use Rattle.op_payment.specs.Paths.{is_same_asset};
ghost use Rattle.path_finder.specs.Cheapest.{IsCheapestPath};
ghost use Rattle.path_finder.specs.Costs as costs;
ghost use Rattle.path_finder.specs.Query.{IsJudged, UnlessNoMemory, candidates_of};

use crate::candidates::distinct;
use crate::cost::cost_of;
use crate::query::{Found, PathFault, PathQuery, bad_index};
use crate::search::search;
use entry_map::{Base, Entries};
use ledger_types::Asset;
use sponsor_rules::Ctx;
use std::alloc::AllocError;

/// How many distinct candidates a query may have.
const MAX_CANDIDATES: usize = 12;

/// The distinct candidates of a query, if it can be answered.
fn accepted(query: &PathQuery) -> Result<Vec<Asset>, PathFault>
    requires { length query.now.candidates + 3 < 2 ^ 32 }
    ensures judged { IsJudged result query.now }
    ensures candidates { IfOk result (λ kept. kept.items ≡ candidates_of query.now) }
    ensures once { IfOk result (λ kept. IsDistinct is_same_asset kept.items) }
    ensures amount { OnOk result (pos 0 ≤ℤ query.now.amount) }
{
    if let Some(index) = bad_index(query) {
        return Err(PathFault::BadQuery { index });
    }
    let candidates = distinct(query.candidates.allocator(), query.candidates.as_slice())?;
    if candidates.len() > MAX_CANDIDATES {
        return Err(PathFault::TooMany {
            given: candidates.len() as u32,
        });
    }
    Ok(candidates)
}

/// The context in which the query's source is the source of the operation.
fn context_for(ctx: &Ctx, query: &PathQuery) -> Result<Ctx, AllocError>
    ensures { IfOk result (λ own. own ≡ costs.context_for ctx.now query.now) }
{
    Ok(Ctx {
        seq: ctx.seq,
        version: ctx.version,
        base_reserve: ctx.base_reserve,
        flags: ctx.flags,
        close_time: ctx.close_time,
        tx_source: ctx.tx_source,
        tx_seq: ctx.tx_seq,
        op_index: ctx.op_index,
        op_source: query.source,
        id_pool: ctx.id_pool,
        sponsorships: ctx.sponsorships.copy()?,
    })
}

/// What a path costs, and none where it has no cost: how much of `send` the hops of PATH_PAYMENT_STRICT_RECEIVE take
/// along it so that `amount` of `dest` comes out of the last one, with 1000 crossings for the path. The query's source
/// is the taker. Unlike the operation, this neither credits a destination before the hops nor debits the source after
/// them. The path is any list of assets. The map is as it was, but where memory was refused: then the entries may only
/// be dropped.
#[tactic(auto, using(crate::proofs::CostsPaid::same_costs))]
pub fn path_cost<B: Base>(
    entries: &mut Entries<'_, B>,
    ctx: &Ctx,
    query: &PathQuery,
    path: &[Asset],
) -> Result<Option<i64>, PathFault>
    requires crossable { IsCrossable entries.old.current }
    requires few { length query.now.candidates + 3 < 2 ^ 32 }
    ensures judged { IsJudged result query.now }
    ensures cost { IfOk result (λ cost. cost ≡ costs.cost_of ctx.now query.now entries.old.current path.now) }
    ensures map { UnlessNoMemory result (entries.new ≡ entries.old) }
{
    let _candidates = accepted(query)?;
    let own = context_for(ctx, query)?;
    Ok(cost_of(entries, &own, query, path)?)
}

/// The cheapest of all paths of at most two distinct candidates, and none where no path has a cost. Of paths that cost
/// the same it is the shortest, and then the one whose assets, from the first on, are earlier candidates. The map is as
/// it was, but where memory was refused: then the entries may only be dropped.
#[tactic(auto, using(crate::proofs::CostsPaid::same_costs))]
pub fn cheapest<B: Base>(
    entries: &mut Entries<'_, B>,
    ctx: &Ctx,
    query: &PathQuery,
) -> Result<Option<Found>, PathFault>
    requires crossable { IsCrossable entries.old.current }
    requires few { length query.now.candidates + 3 < 2 ^ 32 }
    ensures judged { IsJudged result query.now }
    ensures cheapest { IfOk result (
        IsCheapestPath (costs.cost_of ctx.now query.now entries.old.current) (candidates_of query.now)) }
    ensures map { UnlessNoMemory result (entries.new ≡ entries.old) }
{
    let candidates = accepted(query)?;
    let own = context_for(ctx, query)?;
    Ok(search(entries, &own, query, candidates.as_slice())?)
}
