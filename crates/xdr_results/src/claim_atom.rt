//! What trades moved.

ghost use Rattle.std.specs.Prelude.{◌≡◌, OnOk};
ghost use Rattle.xdr_core.specs.Position.{Reads, itself};
ghost use Rattle.xdr_core.specs.Combinators.{arm_at};
ghost use Rattle.xdr_results.specs.Answers as spec;

use ledger_types::{Asset, ClaimAtom};
use std::alloc::{AllocError, Global};
use xdr_core::{Builder, Cursor, Decode, Encode, ReadFault, XdrFault, XdrKind};
use xdr_entries::{
    read_account_id, read_asset, read_hash, write_account_id, write_asset, write_hash,
};

/// CLAIM_ATOM_TYPE_V0 (Stellar-transaction.x).
const CLAIM_ATOM_TYPE_V0: i32 = 0;

/// CLAIM_ATOM_TYPE_ORDER_BOOK (Stellar-transaction.x).
const CLAIM_ATOM_TYPE_ORDER_BOOK: i32 = 1;

/// CLAIM_ATOM_TYPE_LIQUIDITY_POOL (Stellar-transaction.x).
const CLAIM_ATOM_TYPE_LIQUIDITY_POOL: i32 = 2;

/// Reads so much of an asset.
fn read_asset_amount(cursor: &mut Cursor<'_>) -> Result<(Asset, i64), XdrFault>
    ensures { Reads itself result cursor.old cursor.new (spec.asset_amount.read cursor.old) }
{
    let mut ahead = cursor.fork();
    let asset = read_asset(&mut ahead)?;
    let amount = ahead.i64()?;
    *cursor = ahead;
    Ok((asset, amount))
}

/// Writes so much of an asset.
fn write_asset_amount(asset: &Asset, amount: i64, builder: &mut Builder) -> Result<(), AllocError>
    ensures { OnOk result (builder.new ≡ spec.asset_amount.onto builder.old (asset.now, amount)) }
{
    write_asset(asset, builder)?;
    builder.i64(amount)
}

/// Writes what was given, and what was got.
fn write_trade(
    asset_sold: &Asset,
    amount_sold: i64,
    asset_bought: &Asset,
    amount_bought: i64,
    builder: &mut Builder,
) -> Result<(), AllocError>
    ensures { OnOk result (builder.new
        ≡ spec.trade.onto builder.old ((asset_sold.now, amount_sold), (asset_bought.now, amount_bought))) }
{
    write_asset_amount(asset_sold, amount_sold, builder)?;
    write_asset_amount(asset_bought, amount_bought, builder)
}

/// Reads what a trade with an offer moved, as before protocol 18.
fn read_v0_atom(cursor: &mut Cursor<'_>) -> Result<ClaimAtom, XdrFault>
    ensures { Reads itself result cursor.old cursor.new (arm_at spec.atom_v0 cursor.old) }
{
    let mut ahead = cursor.fork();
    let seller_ed25519 = ahead.array::<32>()?;
    let offer_id = ahead.i64()?;
    let (asset_sold, amount_sold) = read_asset_amount(&mut ahead)?;
    let (asset_bought, amount_bought) = read_asset_amount(&mut ahead)?;
    *cursor = ahead;
    Ok(ClaimAtom::V0 {
        seller_ed25519,
        offer_id,
        asset_sold,
        amount_sold,
        asset_bought,
        amount_bought,
    })
}

/// Reads what a trade with an offer moved.
fn read_order_book_atom(cursor: &mut Cursor<'_>) -> Result<ClaimAtom, XdrFault>
    ensures { Reads itself result cursor.old cursor.new (arm_at spec.atom_order_book cursor.old) }
{
    let mut ahead = cursor.fork();
    let seller_id = read_account_id(&mut ahead)?;
    let offer_id = ahead.i64()?;
    let (asset_sold, amount_sold) = read_asset_amount(&mut ahead)?;
    let (asset_bought, amount_bought) = read_asset_amount(&mut ahead)?;
    *cursor = ahead;
    Ok(ClaimAtom::OrderBook {
        seller_id,
        offer_id,
        asset_sold,
        amount_sold,
        asset_bought,
        amount_bought,
    })
}

/// Reads what a trade with a pool moved.
fn read_liquidity_pool_atom(cursor: &mut Cursor<'_>) -> Result<ClaimAtom, XdrFault>
    ensures { Reads itself result cursor.old cursor.new (arm_at spec.atom_liquidity_pool cursor.old) }
{
    let mut ahead = cursor.fork();
    let pool_id = read_hash(&mut ahead)?;
    let (asset_sold, amount_sold) = read_asset_amount(&mut ahead)?;
    let (asset_bought, amount_bought) = read_asset_amount(&mut ahead)?;
    *cursor = ahead;
    Ok(ClaimAtom::LiquidityPool {
        pool_id,
        asset_sold,
        amount_sold,
        asset_bought,
        amount_bought,
    })
}

/// Reads what a trade moved.
#[tactic(auto, unfolding(crate::specs::Answers::claim_atom))]
pub fn read_claim_atom(cursor: &mut Cursor<'_>) -> Result<ClaimAtom, XdrFault>
    ensures { Reads itself result cursor.old cursor.new (spec.claim_atom.read cursor.old) }
{
    let mut ahead = cursor.fork();
    let atom = match ahead.i32()? {
        CLAIM_ATOM_TYPE_V0 => read_v0_atom(&mut ahead)?,
        CLAIM_ATOM_TYPE_ORDER_BOOK => read_order_book_atom(&mut ahead)?,
        CLAIM_ATOM_TYPE_LIQUIDITY_POOL => read_liquidity_pool_atom(&mut ahead)?,
        _ => return Err(cursor.fault(XdrKind::BadEnum)),
    };
    *cursor = ahead;
    Ok(atom)
}

/// Writes what a trade moved.
#[tactic(auto, unfolding(crate::specs::Answers::claim_atom))]
pub fn write_claim_atom(value: &ClaimAtom, builder: &mut Builder) -> Result<(), AllocError>
    ensures { OnOk result (builder.new ≡ spec.claim_atom.onto builder.old value.now) }
{
    match value {
        ClaimAtom::V0 {
            seller_ed25519,
            offer_id,
            asset_sold,
            amount_sold,
            asset_bought,
            amount_bought,
        } => {
            builder.i32(CLAIM_ATOM_TYPE_V0)?;
            builder.fixed(seller_ed25519)?;
            builder.i64(*offer_id)?;
            write_trade(
                asset_sold,
                *amount_sold,
                asset_bought,
                *amount_bought,
                builder,
            )
        }
        ClaimAtom::OrderBook {
            seller_id,
            offer_id,
            asset_sold,
            amount_sold,
            asset_bought,
            amount_bought,
        } => {
            builder.i32(CLAIM_ATOM_TYPE_ORDER_BOOK)?;
            write_account_id(seller_id, builder)?;
            builder.i64(*offer_id)?;
            write_trade(
                asset_sold,
                *amount_sold,
                asset_bought,
                *amount_bought,
                builder,
            )
        }
        ClaimAtom::LiquidityPool {
            pool_id,
            asset_sold,
            amount_sold,
            asset_bought,
            amount_bought,
        } => {
            builder.i32(CLAIM_ATOM_TYPE_LIQUIDITY_POOL)?;
            write_hash(pool_id, builder)?;
            write_trade(
                asset_sold,
                *amount_sold,
                asset_bought,
                *amount_bought,
                builder,
            )
        }
    }
}

/// What trades moved, as a format.
pub enum ClaimAtomFormat {}

impl Decode for ClaimAtomFormat {
    type Value = ClaimAtom;

    type Failure = ReadFault;

    ghost format = { spec.claim_atom };

    fn decode(_alloc: Global, cursor: &mut Cursor<'_>) -> Result<ClaimAtom, ReadFault> {
        Ok(read_claim_atom(cursor)?)
    }
}

impl Encode for ClaimAtomFormat {
    #[tactic(auto, using(xdr_core::proofs::FormatLaws::written, crate::proofs::PayloadLaws::claim_atom_laws))]
    fn encode(value: &ClaimAtom, builder: &mut Builder) -> Result<(), AllocError> {
        write_claim_atom(value, builder)
    }
}
