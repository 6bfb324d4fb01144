//! The tests of the source's lines.

ghost use Rattle.std.specs.Prelude.{◌≡◌, Some, IfOk};
ghost use Rattle.trade_cross.specs.legal_rules.Trades.{holder};
ghost use Rattle.op_offers.specs.Calls.{IsTested};
ghost use Rattle.op_offers.specs.Managing as spec;

use crate::ask::Ask;
use crate::fault::OfferFault;
use entry_map::{Base, Entries};
use entry_slots::load_line;
use ledger_types::{AccountId, Asset, TrustLineEntry};
use op_form::{is_authorized, is_issued_by, is_native, line_asset_of};
use std::alloc::AllocError;

/// Why a line can't give what is sold, if it can't.
fn sell_line_fault(line: &TrustLineEntry) -> Option<OfferFault>
    ensures { result ≡ spec.sell_line_fault (Some line.now) }
{
    if line.balance == 0 {
        return Some(OfferFault::NothingToSell);
    }
    if !is_authorized(line) {
        return Some(OfferFault::SellNotAuthorized);
    }
    None
}

/// Why a line can't take what is bought, if it can't.
fn buy_line_fault(line: &TrustLineEntry) -> Option<OfferFault>
    ensures { result ≡ spec.buy_line_fault (Some line.now) }
{
    if !is_authorized(line) {
        return Some(OfferFault::BuyNotAuthorized);
    }
    None
}

/// Why the source can't give what is sold, if it can't. Lumens and what it issues need no line.
fn sell_fault<B: Base>(
    entries: &Entries<'_, B>,
    source: &AccountId,
    asset: &Asset,
) -> Result<Option<OfferFault>, AllocError>
    ensures { IfOk result (λ fault. fault ≡ spec.sell_fault entries.now.current (holder source.now asset.now)) }
{
    if is_native(asset) || is_issued_by(asset, source) {
        return Ok(None);
    }
    match load_line(entries, source, &line_asset_of(asset))? {
        None => Ok(Some(OfferFault::SellNoTrust)),
        Some(slot) => Ok(sell_line_fault(&slot.line)),
    }
}

/// Why the source can't take what is bought, if it can't.
fn buy_fault<B: Base>(
    entries: &Entries<'_, B>,
    source: &AccountId,
    asset: &Asset,
) -> Result<Option<OfferFault>, AllocError>
    ensures { IfOk result (λ fault. fault ≡ spec.buy_fault entries.now.current (holder source.now asset.now)) }
{
    if is_native(asset) || is_issued_by(asset, source) {
        return Ok(None);
    }
    match load_line(entries, source, &line_asset_of(asset))? {
        None => Ok(Some(OfferFault::BuyNoTrust)),
        Some(slot) => Ok(buy_line_fault(&slot.line)),
    }
}

/// Whether the source's lines let it give what is sold and take what is bought.
pub fn test_lines<B: Base>(
    entries: &Entries<'_, B>,
    source: &AccountId,
    ask: &Ask,
) -> Result<(), OfferFault>
    ensures { IsTested result entries.now.current source.now ask.now }
{
    if let Some(fault) = sell_fault(entries, source, &ask.selling)? {
        return Err(fault);
    }
    if let Some(fault) = buy_fault(entries, source, &ask.buying)? {
        return Err(fault);
    }
    Ok(())
}
