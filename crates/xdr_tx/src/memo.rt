//! Memos.

ghost use Rattle.std.specs.Prelude.{◌≡◌, OnOk};
ghost use Rattle.xdr_core.specs.Position.{Reads};
ghost use Rattle.xdr_core.specs.ReadFault.{cause_of};
ghost use Rattle.xdr_tx.specs.Transactions as spec;

use item_list::ItemList;
use op_types::Memo;
use std::alloc::{AllocError, Global};
use xdr_core::{Builder, Cursor, ReadFault, XdrKind};
use xdr_entries::{read_hash, write_hash};

/// The most bytes of a text (Memo in Stellar-transaction.x).
const MAX_MEMO_TEXT_LEN: u32 = 28;

/// MEMO_NONE (Stellar-transaction.x).
const MEMO_NONE: i32 = 0;

/// MEMO_TEXT (Stellar-transaction.x).
const MEMO_TEXT: i32 = 1;

/// MEMO_ID (Stellar-transaction.x).
const MEMO_ID: i32 = 2;

/// MEMO_HASH (Stellar-transaction.x).
const MEMO_HASH: i32 = 3;

/// MEMO_RETURN (Stellar-transaction.x).
const MEMO_RETURN: i32 = 4;

/// Reads a memo.
#[tactic(auto, unfolding(crate::specs::Transactions::memo))]
pub fn read_memo(alloc: Global, cursor: &mut Cursor<'_>) -> Result<Memo, ReadFault>
    ensures { Reads cause_of result cursor.old cursor.new (spec.memo.read cursor.old) }
{
    let mut ahead = cursor.fork();
    let memo = match ahead.i32()? {
        MEMO_NONE => Memo::None,
        MEMO_TEXT => Memo::Text(ItemList::from_slice(alloc, ahead.var(MAX_MEMO_TEXT_LEN)?)?),
        MEMO_ID => Memo::Id(ahead.u64()?),
        MEMO_HASH => Memo::Hash(read_hash(&mut ahead)?),
        MEMO_RETURN => Memo::Return(read_hash(&mut ahead)?),
        _ => return Err(ReadFault::Xdr(cursor.fault(XdrKind::BadEnum))),
    };
    *cursor = ahead;
    Ok(memo)
}

/// Writes a memo.
#[tactic(auto, unfolding(crate::specs::Transactions::memo))]
pub fn write_memo(value: &Memo, builder: &mut Builder) -> Result<(), AllocError>
    requires { spec.memo.within value.now }
    ensures { OnOk result (builder.new ≡ spec.memo.onto builder.old value.now) }
{
    match value {
        Memo::None => builder.i32(MEMO_NONE),
        Memo::Text(text) => {
            builder.i32(MEMO_TEXT)?;
            builder.var(text.as_slice(), MAX_MEMO_TEXT_LEN)
        }
        Memo::Id(id) => {
            builder.i32(MEMO_ID)?;
            builder.u64(*id)
        }
        Memo::Hash(hash) => {
            builder.i32(MEMO_HASH)?;
            write_hash(hash, builder)
        }
        Memo::Return(hash) => {
            builder.i32(MEMO_RETURN)?;
            write_hash(hash, builder)
        }
    }
}
