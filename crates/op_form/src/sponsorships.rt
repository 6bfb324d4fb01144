//! The sponsorships that are open.

ghost use Rattle.std.specs.Prelude.{◌≡◌};
ghost use Rattle.op_form.specs.Sponsorships as spec;

use ledger_types::AccountId;
use sponsor_rules::Ctx;

/// Whether an account is the sponsor of an open sponsorship.
#[tactic(auto, unfolding(crate::specs::Sponsorships::is_open_sponsor))]
pub fn is_open_sponsor(ctx: &Ctx, id: &AccountId) -> bool
    ensures { result ≡ spec.is_open_sponsor ctx.now id.now }
{
    ctx.sponsorships
        .as_slice()
        .iter()
        .any(|sponsorship| sponsorship.sponsor.0 == id.0)
}
