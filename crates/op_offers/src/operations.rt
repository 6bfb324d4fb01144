//! The operations of this crate, by their types.

ghost use Rattle.std.specs.Prelude.{◌≡◌, ◌<◌, IfOk};
ghost use Rattle.op_form.specs.Done.{Does};
ghost use Rattle.op_form.specs.Sequences.{last_seq};
ghost use Rattle.op_offers.specs.Calls.{IsFormed, IsManageable};
ghost use Rattle.op_offers.specs.Managing.{managed};
ghost use Rattle.op_offers.specs.Operations as spec;

use crate::answers::{Kind, answer, fault_answer};
use crate::ask::{Ask, ask_passively, ask_to_buy, ask_to_sell};
use crate::fault::OfferFault;
use crate::manage::{Managed, manage};
use entry_map::{Base, Entries};
use op_types::{ManageOfferResult, ManageOfferSuccess, Operation, OperationBody, OperationResult};
use sponsor_rules::Ctx;
use std::alloc::AllocError;

/// What an operation answers that succeeds.
fn success_answer(kind: Kind, managed: Managed) -> OperationResult
    ensures { result ≡ spec.success_answer (spec.answer_of kind) managed.atoms managed.effect }
{
    let Managed { atoms, effect, .. } = managed;
    answer(
        kind,
        ManageOfferResult::Success(ManageOfferSuccess {
            offers_claimed: atoms,
            offer: effect,
        }),
    )
}

/// Does what is asked for, or nothing where that fails.
fn apply_ask<B: Base>(
    kind: Kind,
    ask: &Ask,
    ctx: &mut Ctx,
    entries: &mut Entries<'_, B>,
) -> Result<OperationResult, AllocError>
    requires seq { ctx.old.seq < last_seq }
    requires manageable { IsManageable ctx.old entries.old.current }
    requires formed { IsFormed ask.now }
    ensures { IfOk result (λ r. Does r ctx.new entries.old entries.new (
        spec.done_of_managed ctx.old (spec.answer_of kind) entries.old.current (
        managed ctx.old ask.now entries.old.current))) }
{
    entries.child()?;
    match manage(entries, ctx, ask) {
        Ok(managed) => {
            entries.commit()?;
            ctx.id_pool = managed.id_pool;
            Ok(success_answer(kind, managed))
        }
        Err(OfferFault::NoMemory) => Err(AllocError),
        Err(fault) => {
            entries.drop_child();
            Ok(fault_answer(kind, fault))
        }
    }
}

/// Applies an operation of `ctx.op_source`: it answers the result, and changes the entries and the greatest id of
/// offers. Where the operation fails, nothing has changed. Operations of other types are not supported here.
#[tactic(auto, unfolding(crate::specs::Operations::offers_operation))]
pub fn apply<B: Base>(
    op: &Operation,
    ctx: &mut Ctx,
    entries: &mut Entries<'_, B>,
) -> Result<OperationResult, AllocError>
    requires seq { ctx.old.seq < last_seq }
    requires manageable { IsManageable ctx.old entries.old.current }
    ensures { IfOk result (λ r.
        Does r ctx.new entries.old entries.new (spec.offers_operation ctx.old op.now.body entries.old.current)) }
{
    match &op.body {
        OperationBody::ManageSellOffer(op) => apply_ask(Kind::Sell, &ask_to_sell(op), ctx, entries),
        OperationBody::CreatePassiveSellOffer(op) => apply_ask(
            Kind::Passive,
            &ask_passively(op),
            ctx,
            entries,
        ),
        OperationBody::ManageBuyOffer(op) => apply_ask(Kind::Buy, &ask_to_buy(op), ctx, entries),
        _ => Ok(OperationResult::NotSupported),
    }
}
