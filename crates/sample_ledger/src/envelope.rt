//! Transactions with their signatures.

ghost use Rattle.std.specs.Prelude.{◌≡◌, ◌<◌, map, IfOk};
ghost use Rattle.std.specs.List.{range_with_len};
ghost use Rattle.sample_ledger.specs.Image.{account_count};
ghost use Rattle.sample_ledger.specs.Records as spec;

use crate::accounts::{ACCOUNT_COUNT, Accounts};
use crate::operations::operations_of;
use crate::turn::is_claim;
use item_list::ItemList;
use op_types::{
    DecoratedSignature, Memo, Preconditions, Transaction, TransactionEnvelope,
    TransactionV1Envelope,
};
use sha2::{Digest, Sha256};
use std::alloc::{AllocError, Global};

/// The accounts that sign an account's transaction.
#[tactic(auto, unfolding(crate::specs::Records::signers_of))]
fn signers_of(alloc: Global, k: u32, account: u32) -> Result<Vec<u32>, AllocError>
    ensures { IfOk result (λ signers. signers.items ≡ spec.signers_of k account) }
{
    if account != 0 {
        Vec::from_slice(alloc, &[account])
    } else if k == 5 {
        Vec::from_slice(alloc, &[0, 8])
    } else if is_claim(k) {
        Vec::from_slice(alloc, &[0, 7])
    } else {
        Vec::from_slice(alloc, &[0])
    }
}

/// The signature of an account.
fn signature(
    alloc: Global,
    accounts: &Accounts,
    account: u32,
) -> Result<DecoratedSignature, AllocError>
    ensures { IfOk result (λ signature. signature ≡ spec.signature accounts.now account) }
{
    let secret = accounts.secret(alloc, account)?;
    let digest = Sha256::digest(secret.as_slice());
    let mut hint = [0u8; 4];
    hint.copy_from_slice(&digest[28..]);
    Ok(DecoratedSignature {
        hint,
        signature: ItemList::from_vec(secret),
    })
}

/// The signatures of accounts.
fn signatures(
    alloc: Global,
    accounts: &Accounts,
    signers: &[u32],
) -> Result<ItemList<DecoratedSignature>, AllocError>
    ensures { IfOk result (λ signatures. signatures ≡ map (spec.signature accounts.now) signers.now) }
{
    let mut signatures = ItemList::new(alloc);
    for signer in signers {
        signatures.push(signature(alloc, accounts, *signer)?)?;
    }
    Ok(signatures)
}

/// What an account does in a record.
#[tactic(auto, using(crate::proofs::Few::few_operations))]
fn transaction(
    alloc: Global,
    accounts: &Accounts,
    k: u32,
    account: u32,
) -> Result<Transaction, AllocError>
    requires { account < account_count }
    ensures { IfOk result (λ tx. tx ≡ spec.transaction_of accounts.now k account) }
{
    let operations = operations_of(alloc, accounts, k, account)?;
    Ok(Transaction {
        source_account: accounts.muxed(account),
        fee: 100 * operations.len() as u32,
        seq_num: i64::from(k),
        cond: Preconditions::None,
        memo: Memo::None,
        operations,
    })
}

/// An account's transaction in a record, with its signatures.
#[tactic(auto, unfolding(crate::specs::Records::envelope_of))]
fn envelope(
    alloc: Global,
    accounts: &Accounts,
    k: u32,
    account: u32,
) -> Result<TransactionEnvelope, AllocError>
    requires { account < account_count }
    ensures { IfOk result (λ envelope. envelope ≡ spec.envelope_of accounts.now k account) }
{
    let tx = transaction(alloc, accounts, k, account)?;
    let signers = signers_of(alloc, k, account)?;
    let signatures = signatures(alloc, accounts, signers.as_slice())?;
    Ok(TransactionEnvelope::V1(TransactionV1Envelope { tx, signatures }))
}

/// The transactions of a record.
#[tactic(auto, using(crate::proofs::Listed::one_number_more))]
pub(crate) fn envelopes(
    alloc: Global,
    accounts: &Accounts,
    k: u32,
) -> Result<ItemList<TransactionEnvelope>, AllocError>
    ensures { IfOk result (λ envelopes.
        envelopes ≡ map (spec.envelope_of accounts.now k) (range_with_len 0 account_count)) }
{
    let mut envelopes = ItemList::new(alloc);
    for account in 0..ACCOUNT_COUNT {
        envelopes.push(envelope(alloc, accounts, k, account)?)?;
    }
    Ok(envelopes)
}
