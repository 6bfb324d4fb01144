//! The tests of SET_OPTIONS before its signer.

ghost use Rattle.std.specs.Prelude.{◌≡◌, IfOk, IfNone, false};
ghost use Rattle.entry_slots.specs.Tests.{first_fault};
ghost use Rattle.op_options.specs.OptionTests as spec;

use entry_map::{Base, Entries};
use item_list::ItemList;
use ledger_types::{AccountEntry, AccountId, Signer, SignerKey};
use op_form::exists;
use op_types::{OperationResult, OperationResultTr, SetOptionsOp, SetOptionsResult};
use sponsor_rules::Ctx;
use std::alloc::AllocError;
use valid_values::is_valid_text;

/// AUTH_REVOCABLE_FLAG of an account.
const AUTH_REVOCABLE: u32 = 2;

/// AUTH_IMMUTABLE_FLAG of an account.
const AUTH_IMMUTABLE: u32 = 4;

/// AUTH_CLAWBACK_ENABLED_FLAG of an account (CAP-0035).
const AUTH_CLAWBACK_ENABLED: u32 = 8;

/// All flags of an account (MASK_ACCOUNT_FLAGS_V17).
const ALL_FLAGS: u32 = 15;

/// The first protocol in which a signed payload may be a signer (CAP-0040).
const SIGNED_PAYLOADS_FROM: u32 = 19;

/// What the operation answers.
pub fn answer(code: SetOptionsResult) -> OperationResult
    ensures { result ≡ spec.answer code }
{
    OperationResult::Inner(OperationResultTr::SetOptions(code))
}

/// Flags that are given, or none.
fn flags_in(given: Option<u32>) -> u32
    ensures { result ≡ spec.flags_in given }
{
    given.unwrap_or(0)
}

/// Whether a weight or a threshold is given that doesn't fit a byte.
fn is_too_great(weight: Option<u32>) -> bool
    ensures { result ≡ spec.is_too_great weight }
{
    weight.unwrap_or(0) > 255
}

/// Whether a key is the account's own.
fn is_own_key(id: &AccountId, key: &SignerKey) -> bool
    ensures { result ≡ spec.is_own_key id.now key.now }
{
    match key {
        SignerKey::Ed25519(key) => *key == id.0,
        _ => false,
    }
}

/// Whether a key is a signed payload that can't be a signer's: before protocol 19 none can, and none that is empty.
fn is_bad_payload(version: u32, key: &SignerKey) -> bool
    ensures { result ≡ spec.is_bad_payload version key.now }
{
    match key {
        SignerKey::SignedPayload { payload, .. } => {
            version < SIGNED_PAYLOADS_FROM || payload.as_slice().is_empty()
        }
        _ => false,
    }
}

/// Whether a signer is given that the account can't have.
fn is_bad_signer(ctx: &Ctx, signer: &Option<Signer>) -> bool
    ensures { result ≡ spec.is_bad_signer ctx.now signer.now }
{
    match signer {
        None => false,
        Some(signer) => {
            is_own_key(&ctx.op_source, &signer.key)
                || signer.weight > 255
                || is_bad_payload(ctx.version, &signer.key)
        }
    }
}

/// Whether a home domain is given that is no valid text.
fn is_bad_domain(domain: &Option<ItemList<u8>>) -> bool
    ensures { result ≡ spec.is_bad_domain domain.now }
{
    match domain {
        None => false,
        Some(domain) => !is_valid_text(domain.as_slice()),
    }
}

/// Whether a weight or a threshold is given that doesn't fit a byte.
fn is_out_of_range(op: &SetOptionsOp) -> bool
    ensures { result ≡ spec.is_out_of_range op.now }
{
    is_too_great(op.master_weight)
        || is_too_great(op.low_threshold)
        || is_too_great(op.med_threshold)
        || is_too_great(op.high_threshold)
}

/// Why what is given can't be set on any account, if it can't.
pub fn given_refusal(ctx: &Ctx, op: &SetOptionsOp) -> Option<OperationResult>
    ensures refusal { result ≡ first_fault (spec.given_tests ctx.now op.now) }
    ensures weights { IfNone result (spec.is_out_of_range op.now ≡ false) }
{
    let set = flags_in(op.set_flags);
    let clear = flags_in(op.clear_flags);
    if set > ALL_FLAGS || clear > ALL_FLAGS {
        return Some(answer(SetOptionsResult::UnknownFlag));
    }
    if set & clear != 0 {
        return Some(answer(SetOptionsResult::BadFlags));
    }
    if is_out_of_range(op) {
        return Some(answer(SetOptionsResult::ThresholdOutOfRange));
    }
    if is_bad_signer(ctx, &op.signer) {
        return Some(answer(SetOptionsResult::BadSigner));
    }
    if is_bad_domain(&op.home_domain) {
        return Some(answer(SetOptionsResult::InvalidHomeDomain));
    }
    None
}

/// Whether an account is given that doesn't exist.
pub fn is_missing<B: Base>(
    entries: &Entries<'_, B>,
    id: &Option<AccountId>,
) -> Result<bool, AllocError>
    ensures { IfOk result (λ missing. missing ≡ spec.is_missing entries.now.current id.now) }
{
    match id {
        None => Ok(false),
        Some(id) => Ok(!exists(entries, id)?),
    }
}

/// Flags without those that are cleared, and with those that are set.
pub fn new_flags(op: &SetOptionsOp, flags: u32) -> u32
    ensures { result ≡ spec.new_flags op.now flags }
{
    (flags ^ (flags & flags_in(op.clear_flags))) | flags_in(op.set_flags)
}

/// Why the source can't have what is given, if it can't.
pub fn source_refusal(op: &SetOptionsOp, account: &AccountEntry) -> Option<OperationResult>
    ensures { result ≡ first_fault (spec.source_tests op.now account.now) }
{
    let changes_flags = flags_in(op.clear_flags) != 0 || flags_in(op.set_flags) != 0;
    if account.flags & AUTH_IMMUTABLE != 0 && changes_flags {
        return Some(answer(SetOptionsResult::CantChange));
    }
    let flags = new_flags(op, account.flags);
    if flags & AUTH_CLAWBACK_ENABLED != 0 && flags & AUTH_REVOCABLE == 0 {
        return Some(answer(SetOptionsResult::AuthRevocableRequired));
    }
    None
}
