//! Flags of a line that its asset's issuer changes.

ghost use Rattle.std.specs.Prelude.{◌≡◌, ◌<◌, true, false, Some, IfOk, OnOk};
ghost use Rattle.entry_map.specs.Undo.{with_current};
ghost use Rattle.entry_slots.specs.Lines as lines;
ghost use Rattle.trade_cross.specs.legal_rules.Owing.{AreEntriesLegal};
ghost use Rattle.op_form.specs.Assets.{is_native, line_of_asset, line_asset_of as line_asset};
ghost use Rattle.op_form.specs.Done.{Makes};
ghost use Rattle.op_form.specs.Sequences.{last_seq};
ghost use Rattle.op_flags.specs.Outcomes.{low_answer, success_answer};
ghost use Rattle.op_flags.specs.LineFlags as spec;

use crate::revoked_shares::revoke_shares;
use crate::revoker::{Revoker, success_answer};
use crate::revoking::revoke_offers;
use entry_map::{Base, Entries};
use entry_slots::{LineSlot, load_line, store_line};
use ledger_types::{AccountId, Asset, TrustLineEntry};
use op_form::line_asset_of;
use op_types::OperationResult;
use sponsor_rules::Ctx;
use std::alloc::AllocError;

/// AUTHORIZED_FLAG and AUTHORIZED_TO_MAINTAIN_LIABILITIES_FLAG of a trust line.
pub const AUTHORIZING: u32 = 3;

/// Whether a line was authorised, at least to maintain liabilities, and isn't any more with these flags.
fn is_revoked(line: &TrustLineEntry, flags: u32) -> bool
    ensures { result ≡ spec.is_revoked line.now flags }
{
    line.flags & AUTHORIZING != 0 && flags & AUTHORIZING == 0
}

/// Gives a line its new flags. Where an authorisation is taken back, the account's offers in the asset are removed
/// first, and its shares of pools that have it are given back afterwards; where what these give can't be left, nothing
/// has changed.
pub fn flag_line<B: Base>(
    entries: &mut Entries<'_, B>,
    ctx: &Ctx,
    by: Revoker,
    trustor: &AccountId,
    asset: &Asset,
    flags: u32,
    line: &TrustLineEntry,
) -> Result<OperationResult, AllocError>
    requires seq { ctx.now.seq < last_seq }
    requires legal { AreEntriesLegal ctx.now.id_pool entries.old.current }
    requires issued { is_native asset.now ≡ false }
    requires exists { line_of_asset entries.old.current trustor.now asset.now ≡ Some line.now }
    requires flags { spec.AreFlagsFit flags }
    ensures { IfOk result (λ r.
        Makes r ctx.now entries.old entries.new (
        spec.flagged ctx.now trustor.now asset.now flags (low_answer by) (success_answer by) line.now
        entries.old.current)) }
{
    if is_revoked(line, flags) {
        return revoke(entries, ctx, by, trustor, asset, flags, line);
    }
    set_flags(entries, trustor, asset, flags)?;
    Ok(success_answer(by))
}

/// Gives a line flags that take its authorisation back.
fn revoke<B: Base>(
    entries: &mut Entries<'_, B>,
    ctx: &Ctx,
    by: Revoker,
    trustor: &AccountId,
    asset: &Asset,
    flags: u32,
    line: &TrustLineEntry,
) -> Result<OperationResult, AllocError>
    requires seq { ctx.now.seq < last_seq }
    requires legal { AreEntriesLegal ctx.now.id_pool entries.old.current }
    requires issued { is_native asset.now ≡ false }
    requires exists { line_of_asset entries.old.current trustor.now asset.now ≡ Some line.now }
    requires flags { spec.AreFlagsFit flags }
    requires revoked { spec.is_revoked line.now flags ≡ true }
    ensures { IfOk result (λ r.
        Makes r ctx.now entries.old entries.new (
        spec.flagged ctx.now trustor.now asset.now flags (low_answer by) (success_answer by) line.now
        entries.old.current)) }
{
    entries.child()?;
    revoke_offers(entries, ctx, trustor, asset)?;
    set_flags(entries, trustor, asset, flags)?;
    match revoke_shares(entries, ctx, by, trustor, asset)? {
        None => {
            entries.commit()?;
            Ok(success_answer(by))
        }
        Some(refusal) => {
            entries.drop_child();
            Ok(refusal)
        }
    }
}

/// Gives the line other flags, if it exists. It is looked up here, since offers that were removed bound it.
#[tactic(auto, unfolding(entry_slots::specs::Lines::with_line))]
fn set_flags<B: Base>(
    entries: &mut Entries<'_, B>,
    trustor: &AccountId,
    asset: &Asset,
    flags: u32,
) -> Result<(), AllocError>
    ensures { OnOk result (
        entries.new ≡
        with_current entries.old (
        lines.with_line entries.old.current trustor.now (line_asset asset.now) (spec.with_flags flags))) }
{
    let Some(slot) = load_line(entries, trustor, &line_asset_of(asset))? else {
        return Ok(());
    };
    store_flags(entries, trustor, asset, flags, slot)
}

/// Stores the line that was loaded with other flags.
#[tactic(auto, unfolding(entry_slots::specs::Lines::with_line))]
fn store_flags<B: Base>(
    entries: &mut Entries<'_, B>,
    trustor: &AccountId,
    asset: &Asset,
    flags: u32,
    slot: LineSlot,
) -> Result<(), AllocError>
    requires { Some slot ≡ lines.line_slot_at entries.old.current trustor.now (line_asset asset.now) }
    ensures { OnOk result (
        entries.new ≡
        with_current entries.old (
        lines.with_line entries.old.current trustor.now (line_asset asset.now) (spec.with_flags flags))) }
{
    let mut slot = slot;
    slot.line.flags = flags;
    store_line(entries, slot)
}
