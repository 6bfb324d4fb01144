//! What accounts do from record 6 on.

ghost use Rattle.std.specs.Prelude.{◌≡◌, ◌≤◌, IfOk, IsTrue};
ghost use Rattle.sample_ledger.specs.Records as spec;

use crate::accounts::Accounts;
use crate::operation::{by, claim, claimable, claw_back, own, payment, sell, send_path, usd};
use crate::text::sample_text;
use byteorder::{BigEndian, ByteOrder};
use ledger_types::Asset;
use op_types::{Operation, OperationBody};
use sha2::{Digest, Sha256};
use std::alloc::{AllocError, Global};

/// Whether account 7 claims in a record.
pub(crate) fn is_claim(k: u32) -> bool
    ensures is { result ≡ spec.is_claim k }
    ensures late { IsTrue result → 17 ≤ k }
{
    k % 10 == 7 && k >= 17
}

/// What account 0 does.
#[tactic(auto, unfolding(crate::specs::Records::issuer_turn))]
pub(crate) fn issuer_turn(
    alloc: Global,
    accounts: &Accounts,
    k: u32,
) -> Result<Operation, AllocError>
    ensures { IfOk result (λ operation. operation ≡ spec.issuer_turn accounts.now k) }
{
    if k % 10 == 0 {
        Ok(own(claw_back(accounts, 1 + k / 10 % 8)))
    } else if k % 10 == 5 {
        Ok(own(claimable(alloc, accounts)?))
    } else if is_claim(k) {
        Ok(by(accounts, 7, claim(alloc, accounts, k)?))
    } else {
        Ok(own(payment(accounts, 1 + k % 8, usd(accounts), 1000)))
    }
}

/// The number that decides what another account does.
#[tactic(auto, unfolding(crate::specs::Records::draw))]
pub(crate) fn draw(
    alloc: Global,
    accounts: &Accounts,
    k: u32,
    account: u32,
) -> Result<u64, AllocError>
    ensures { IfOk result (λ v. v ≡ spec.draw accounts.now k account) }
{
    let text = sample_text(alloc, b"draw", &[accounts.seed(), k, account])?;
    let digest = Sha256::digest(text.as_slice());
    Ok(BigEndian::read_u64(&digest))
}

/// What a drawn number gives.
#[tactic(auto, unfolding(crate::specs::Records::drawn_turn))]
pub(crate) fn drawn_turn(alloc: Global, accounts: &Accounts, v: u64) -> OperationBody
    ensures { result ≡ spec.drawn_turn accounts.now v }
{
    let amount = 1 + (v / 8 % 1000) as u32;
    let other = 1 + (v / 8192 % 8) as u32;
    let n = 900 + (v / 65536 % 200) as u32;
    match v % 5 {
        0 => payment(accounts, other, Asset::Native, 1000 * amount),
        1 => payment(accounts, other, usd(accounts), amount),
        2 => sell(usd(accounts), Asset::Native, amount, n),
        3 => sell(Asset::Native, usd(accounts), amount, n),
        _ => send_path(alloc, accounts, other, amount),
    }
}
