//! The search for the cheapest path: the shorter ones first, and of one length those of earlier candidates.

ghost use Rattle.std.specs.Prelude.{◌≡◌, ◌+◌, [], ◌∷◌, Contains, None, IfOk, OnOk};
ghost use Rattle.std.specs.List.{IsDistinct};
ghost use Rattle.op_payment.specs.Paths.{is_same_asset};
ghost use Rattle.path_finder.specs.Costs.{IsPayable, cost_of};
ghost use Rattle.path_finder.specs.Cheapest.{IsCheapestPath, position_in};
ghost use Rattle.path_finder.specs.Search as spec;

use crate::cost::cost_of;
use crate::query::{Found, PathQuery};
use entry_map::{Base, Entries};
use item_list::ItemList;
use ledger_types::Asset;
use sponsor_rules::Ctx;
use std::alloc::AllocError;

/// Whether a cost is below that of the best path so far, or there is none yet.
fn is_cheaper(cost: i64, best: &Option<Found>) -> bool
    ensures { result ≡ spec.is_cheaper cost best.now }
{
    match best {
        Some(found) => cost < found.cost,
        None => true,
    }
}

/// Takes a path where it costs less than the best one so far.
fn consider<B: Base>(
    entries: &mut Entries<'_, B>,
    ctx: &Ctx,
    query: &PathQuery,
    path: &[Asset],
    best: &mut Option<Found>,
) -> Result<(), AllocError>
    requires { IsPayable ctx.now query.now entries.old.current }
    ensures best { OnOk result (
        best.new ≡ spec.better best.old path.now (cost_of ctx.now query.now entries.old.current path.now)) }
    ensures map { OnOk result (entries.new ≡ entries.old) }
{
    let Some(cost) = cost_of(entries, ctx, query, path)? else {
        return Ok(());
    };
    if is_cheaper(cost, best) {
        let path = ItemList::from_slice(query.candidates.allocator(), path)?;
        *best = Some(Found { path, cost });
    }
    Ok(())
}

/// Considers the paths of one asset, once that of none was.
fn consider_singles<B: Base>(
    entries: &mut Entries<'_, B>,
    ctx: &Ctx,
    query: &PathQuery,
    candidates: &[Asset],
    best: &mut Option<Found>,
) -> Result<(), AllocError>
    requires payable { IsPayable ctx.now query.now entries.old.current }
    requires once { IsDistinct is_same_asset candidates.now }
    requires best { spec.IsBestBefore (cost_of ctx.now query.now entries.old.current) candidates.now (
        1 ∷ []) best.old }
    ensures best { OnOk result (
        spec.IsBestBefore (cost_of ctx.now query.now entries.old.current) candidates.now (2 ∷ []) best.new) }
    ensures map { OnOk result (entries.new ≡ entries.old) }
{
    for asset in candidates {
        consider(entries, ctx, query, &[*asset], best)?;
    }
    Ok(())
}

/// Considers the paths of two assets whose first one is this, once those before them were.
fn consider_pairs_from<B: Base>(
    entries: &mut Entries<'_, B>,
    ctx: &Ctx,
    query: &PathQuery,
    candidates: &[Asset],
    first: &Asset,
    best: &mut Option<Found>,
) -> Result<(), AllocError>
    requires payable { IsPayable ctx.now query.now entries.old.current }
    requires once { IsDistinct is_same_asset candidates.now }
    requires among { Contains candidates.now first.now }
    requires best { spec.IsBestBefore (cost_of ctx.now query.now entries.old.current) candidates.now (
        2 ∷ position_in candidates.now first.now ∷ []) best.old }
    ensures best { OnOk result (
        spec.IsBestBefore (cost_of ctx.now query.now entries.old.current) candidates.now (
        2 ∷ (position_in candidates.now first.now + 1) ∷ []) best.new) }
    ensures map { OnOk result (entries.new ≡ entries.old) }
{
    for second in candidates {
        if !first.is_same(second) {
            consider(entries, ctx, query, &[*first, *second], best)?;
        }
    }
    Ok(())
}

/// Considers the paths of two assets, once the shorter ones were.
fn consider_pairs<B: Base>(
    entries: &mut Entries<'_, B>,
    ctx: &Ctx,
    query: &PathQuery,
    candidates: &[Asset],
    best: &mut Option<Found>,
) -> Result<(), AllocError>
    requires payable { IsPayable ctx.now query.now entries.old.current }
    requires once { IsDistinct is_same_asset candidates.now }
    requires best { spec.IsBestBefore (cost_of ctx.now query.now entries.old.current) candidates.now (
        2 ∷ []) best.old }
    ensures best { OnOk result (
        IsCheapestPath (cost_of ctx.now query.now entries.old.current) candidates.now best.new) }
    ensures map { OnOk result (entries.new ≡ entries.old) }
{
    for first in candidates {
        consider_pairs_from(entries, ctx, query, candidates, first, best)?;
    }
    Ok(())
}

/// Considers all paths, the shorter ones first.
fn consider_all<B: Base>(
    entries: &mut Entries<'_, B>,
    ctx: &Ctx,
    query: &PathQuery,
    candidates: &[Asset],
    best: &mut Option<Found>,
) -> Result<(), AllocError>
    requires payable { IsPayable ctx.now query.now entries.old.current }
    requires once { IsDistinct is_same_asset candidates.now }
    requires none { best.old ≡ None }
    ensures best { OnOk result (
        IsCheapestPath (cost_of ctx.now query.now entries.old.current) candidates.now best.new) }
    ensures map { OnOk result (entries.new ≡ entries.old) }
{
    consider(entries, ctx, query, &[], best)?;
    consider_singles(entries, ctx, query, candidates, best)?;
    consider_pairs(entries, ctx, query, candidates, best)
}

/// The cheapest of all paths by these candidates.
pub fn search<B: Base>(
    entries: &mut Entries<'_, B>,
    ctx: &Ctx,
    query: &PathQuery,
    candidates: &[Asset],
) -> Result<Option<Found>, AllocError>
    requires payable { IsPayable ctx.now query.now entries.old.current }
    requires once { IsDistinct is_same_asset candidates.now }
    ensures cheapest { IfOk result (
        IsCheapestPath (cost_of ctx.now query.now entries.old.current) candidates.now) }
    ensures map { OnOk result (entries.new ≡ entries.old) }
{
    let mut best = None;
    consider_all(entries, ctx, query, candidates, &mut best)?;
    Ok(best)
}
