//! What can be clawed back (CAP-0035).

ghost use Rattle.std.specs.Prelude.{◌≡◌, IfOk};
ghost use Rattle.op_form.specs.Assets.{line_of_asset};
ghost use Rattle.op_form.specs.Flags as spec;

use crate::assets::line_asset_of;
use crate::flags::is_line_clawback_enabled;
use entry_map::{Base, Entries};
use entry_slots::load_line;
use ledger_types::{AccountId, Asset, ClaimableBalanceEntryExtensionV1};
use std::alloc::AllocError;

/// CLAIMABLE_BALANCE_CLAWBACK_ENABLED_FLAG.
const CLAWBACK_ENABLED: u32 = 1;

/// Whether what an account's line in an asset holds can be clawed back.
pub fn can_be_clawed_back<B: Base>(
    entries: &Entries<'_, B>,
    id: &AccountId,
    asset: &Asset,
) -> Result<bool, AllocError>
    ensures { IfOk result (λ can. can ≡ spec.is_clawback_line (line_of_asset entries.now.current id.now asset.now)) }
{
    match load_line(entries, id, &line_asset_of(asset))? {
        None => Ok(false),
        Some(slot) => Ok(is_line_clawback_enabled(&slot.line)),
    }
}

/// The extension of a claimable balance that can be clawed back; another one has none.
pub fn flagged_ext(can_be_clawed_back: bool) -> Option<ClaimableBalanceEntryExtensionV1>
    ensures { result ≡ spec.flagged_ext can_be_clawed_back }
{
    if can_be_clawed_back {
        Some(ClaimableBalanceEntryExtensionV1 {
            flags: CLAWBACK_ENABLED,
        })
    } else {
        None
    }
}
