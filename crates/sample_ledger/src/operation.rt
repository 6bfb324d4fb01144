//! Operations.

ghost use Rattle.std.specs.Prelude.{◌≡◌, ◌<◌, ◌≤◌, ◌^◌, [], ◌∷◌, codes, Some, IfOk};
ghost use Rattle.op_types.specs.declared.operation.OperationBody.TheVariants as op;
ghost use Rattle.sample_ledger.specs.Accounts.{account_id};
ghost use Rattle.sample_ledger.specs.Image.{account_count};
ghost use Rattle.sample_ledger.specs.Records as spec;

use crate::accounts::Accounts;
use byteorder::{BigEndian, ByteOrder};
use hash_ids::{balance_id, pool_id};
use item_list::ItemList;
use ledger_types::{
    Asset, ChangeTrustAsset, ClaimPredicate, ClaimableBalanceId, Claimant, Hash, PoolParams, Price,
};
use op_types::{
    BeginSponsoringFutureReservesOp, ChangeTrustOp, ClaimClaimableBalanceOp, ClawbackOp,
    CreateClaimableBalanceOp, LiquidityPoolDepositOp, ManageDataOp, ManageSellOfferOp, Operation,
    OperationBody, PathPaymentStrictSendOp, PaymentOp, SetOptionsOp,
};
use std::alloc::{AllocError, Global};

/// The greatest amount of a line.
const LIMIT: i64 = 1_000_000_000_000_000;

/// USD of account 0.
pub(crate) fn usd(accounts: &Accounts) -> Asset
    ensures { result ≡ spec.usd accounts.now }
{
    Asset::Alphanum4 {
        code: *b"USD\0",
        issuer: accounts.id(0),
    }
}

/// The id of the pool of lumens and USD.
fn pool(alloc: Global, accounts: &Accounts) -> Result<Hash, AllocError>
    ensures { IfOk result (λ pool. pool ≡ spec.pool_of accounts.now) }
{
    pool_id(alloc, &Asset::Native, &usd(accounts))
}

/// An operation of the transaction's source.
pub(crate) fn own(body: OperationBody) -> Operation
    ensures { result ≡ spec.own body }
{
    Operation {
        source_account: None,
        body,
    }
}

/// An operation of an account.
pub(crate) fn by(accounts: &Accounts, account: u32, body: OperationBody) -> Operation
    requires { account < account_count }
    ensures { result ≡ spec.by accounts.now account body }
{
    Operation {
        source_account: Some(accounts.muxed(account)),
        body,
    }
}

/// A payment to an account.
pub(crate) fn payment(accounts: &Accounts, to: u32, asset: Asset, amount: u32) -> OperationBody
    requires { to < account_count }
    ensures { result ≡ spec.payment accounts.now to asset amount }
{
    OperationBody::Payment(PaymentOp {
        destination: accounts.muxed(to),
        asset,
        amount: i64::from(amount),
    })
}

/// Data under a name.
fn data(alloc: Global, name: &[u8], value: &[u8]) -> Result<OperationBody, AllocError>
    ensures { IfOk result (λ body. body
        ≡ op.ManageData (record { data_name = name.now; data_value = Some value.now })) }
{
    let data_name = ItemList::from_slice(alloc, name)?;
    let data_value = ItemList::from_slice(alloc, value)?;
    Ok(OperationBody::ManageData(ManageDataOp {
        data_name,
        data_value: Some(data_value),
    }))
}

/// Data of a record's number.
#[tactic(auto, unfolding(xdr_core::specs::Leaves::u32))]
pub(crate) fn note(alloc: Global, k: u32) -> Result<OperationBody, AllocError>
    ensures { IfOk result (λ body. body ≡ spec.note k) }
{
    let mut value = [0u8; 4];
    BigEndian::write_u32(&mut value, k);
    data(alloc, b"note", &value)
}

/// A line of USD.
pub(crate) fn trust_usd(accounts: &Accounts) -> OperationBody
    ensures { result ≡ spec.trust_usd accounts.now }
{
    OperationBody::ChangeTrust(ChangeTrustOp {
        line: ChangeTrustAsset::Alphanum4 {
            code: *b"USD\0",
            issuer: accounts.id(0),
        },
        limit: LIMIT,
    })
}

/// A line of the shares of the pool.
pub(crate) fn trust_pool(accounts: &Accounts) -> OperationBody
    ensures { result ≡ spec.trust_pool accounts.now }
{
    OperationBody::ChangeTrust(ChangeTrustOp {
        line: ChangeTrustAsset::PoolShare(PoolParams {
            asset_a: Asset::Native,
            asset_b: usd(accounts),
            fee: 30,
        }),
        limit: LIMIT,
    })
}

/// A name of the issuer's home.
pub(crate) fn name_domain(alloc: Global) -> Result<OperationBody, AllocError>
    ensures { IfOk result (λ body. body ≡ spec.name_domain) }
{
    Ok(OperationBody::SetOptions(SetOptionsOp {
        inflation_dest: None,
        clear_flags: None,
        set_flags: None,
        master_weight: None,
        low_threshold: None,
        med_threshold: None,
        high_threshold: None,
        home_domain: Some(ItemList::from_slice(alloc, b"example.org")?),
        signer: None,
    }))
}

/// A deposit of lumens and USD in the pool.
pub(crate) fn deposit(alloc: Global, accounts: &Accounts) -> Result<OperationBody, AllocError>
    ensures { IfOk result (λ body. body ≡ spec.deposit accounts.now) }
{
    Ok(OperationBody::LiquidityPoolDeposit(LiquidityPoolDepositOp {
        pool_id: pool(alloc, accounts)?,
        max_amount_a: 100_000_000,
        max_amount_b: 100_000_000,
        min_price: Price { n: 1, d: 2 },
        max_price: Price { n: 2, d: 1 },
    }))
}

/// The beginning of what account 0 pays for account 8.
pub(crate) fn begin_sponsoring(accounts: &Accounts) -> OperationBody
    ensures { result ≡ op.BeginSponsoringFutureReserves (record { sponsored_id = account_id accounts.now 8 }) }
{
    OperationBody::BeginSponsoringFutureReserves(BeginSponsoringFutureReservesOp {
        sponsored_id: accounts.id(8),
    })
}

/// Data that account 0 pays for.
pub(crate) fn gift_data(alloc: Global) -> Result<OperationBody, AllocError>
    ensures { IfOk result (λ body. body
        ≡ op.ManageData (record { data_name = codes "gift"; data_value = Some (1 ∷ []) })) }
{
    data(alloc, b"gift", &[1])
}

/// USD taken back from an account.
pub(crate) fn claw_back(accounts: &Accounts, from: u32) -> OperationBody
    requires { from < account_count }
    ensures { result ≡ spec.claw_back accounts.now from }
{
    OperationBody::Clawback(ClawbackOp {
        asset: usd(accounts),
        from: accounts.muxed(from),
        amount: 5,
    })
}

/// USD that waits for account 7.
pub(crate) fn claimable(alloc: Global, accounts: &Accounts) -> Result<OperationBody, AllocError>
    ensures { IfOk result (λ body. body ≡ spec.claimable accounts.now) }
{
    let mut claimants = ItemList::new(alloc);
    claimants.push(Claimant {
        destination: accounts.id(7),
        predicate: ClaimPredicate::Unconditional,
    })?;
    Ok(OperationBody::CreateClaimableBalance(CreateClaimableBalanceOp {
        asset: usd(accounts),
        amount: 10,
        claimants,
    }))
}

/// The claim of the balance of two records before.
pub(crate) fn claim(alloc: Global, accounts: &Accounts, k: u32) -> Result<OperationBody, AllocError>
    requires { 2 ≤ k }
    ensures { IfOk result (λ body. body ≡ spec.claim accounts.now k) }
{
    let id = balance_id(alloc, &accounts.id(0), i64::from(k - 2), 0)?;
    Ok(OperationBody::ClaimClaimableBalance(ClaimClaimableBalanceOp {
        balance_id: ClaimableBalanceId(id),
    }))
}

/// An offer at `n` thousandths.
pub(crate) fn sell(selling: Asset, buying: Asset, amount: u32, n: u32) -> OperationBody
    requires { n < 2 ^ 31 }
    ensures { result ≡ spec.sell selling buying amount n }
{
    OperationBody::ManageSellOffer(ManageSellOfferOp {
        selling,
        buying,
        amount: i64::from(amount),
        price: Price {
            n: n as i32,
            d: 1000,
        },
        offer_id: 0,
    })
}

/// A payment of lumens that come as USD.
pub(crate) fn send_path(alloc: Global, accounts: &Accounts, to: u32, amount: u32) -> OperationBody
    requires { to < account_count }
    ensures { result ≡ spec.send_path accounts.now to amount }
{
    OperationBody::PathPaymentStrictSend(PathPaymentStrictSendOp {
        send_asset: Asset::Native,
        send_amount: i64::from(amount),
        destination: accounts.muxed(to),
        dest_asset: usd(accounts),
        dest_min: 1,
        path: ItemList::new(alloc),
    })
}
