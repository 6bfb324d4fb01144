//! END_SPONSORING_FUTURE_RESERVES.

ghost use Rattle.std.specs.Prelude.{◌≡◌, ◌<◌, IfSome, length};
ghost use Rattle.op_form.specs.Done.{Does, done_of};
ghost use Rattle.op_sponsor.specs.EndSponsoringFutureReserves as spec;

use entry_map::{Base, Entries};
use op_types::{EndSponsoringFutureReservesResult, OperationResult, OperationResultTr};
use sponsor_rules::Ctx;

/// END_SPONSORING_FUTURE_RESERVES: the source pays itself from now on for what it adds. The entries stay. It takes no
/// memory.
pub fn end_sponsoring<B: Base>(ctx: &mut Ctx, _entries: &Entries<'_, B>) -> OperationResult
    ensures { Does result ctx.new _entries.now _entries.now (
        done_of ctx.old _entries.now.current (spec.end_sponsoring ctx.old _entries.now.current)) }
{
    match index_of_sponsorship(ctx) {
        None => answer(EndSponsoringFutureReservesResult::NotSponsored),
        Some(index) => {
            ctx.sponsorships.remove(index);
            answer(EndSponsoringFutureReservesResult::Success)
        }
    }
}

/// What the operation answers.
fn answer(code: EndSponsoringFutureReservesResult) -> OperationResult
    ensures { result ≡ spec.answer code }
{
    OperationResult::Inner(OperationResultTr::EndSponsoringFutureReserves(code))
}

/// The index of the sponsorship that is open for the source.
#[tactic(auto, unfolding(crate::specs::EndSponsoringFutureReserves::index_of_sponsorship))]
fn index_of_sponsorship(ctx: &Ctx) -> Option<usize>
    ensures index { result ≡ spec.index_of_sponsorship ctx.now }
    ensures within { IfSome result (λ index. index < length ctx.now.sponsorships) }
{
    ctx.sponsorships
        .as_slice()
        .iter()
        .position(|sponsorship| sponsorship.sponsored.0 == ctx.op_source.0)
}
