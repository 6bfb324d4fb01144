//! Predicates.

ghost use Rattle.std.specs.Prelude.{◌≡◌, ◌+◌, ◌≤◌, ◌++◌, OnOk};
ghost use Rattle.std.specs.List.{AllByRecursion};
ghost use Rattle.xdr_core.specs.Position.{Reads};
ghost use Rattle.xdr_core.specs.Combinators.{many_at};
ghost use Rattle.xdr_core.specs.Xdr.{optional, list_of};
ghost use Rattle.xdr_core.specs.ReadFault.{cause_of};
ghost use Rattle.xdr_entries.specs.Predicates.{predicate_of, predicate_below, claim_predicate};

use item_list::{Boxed, ItemList};
use ledger_types::ClaimPredicate;
use std::alloc::{AllocError, Global};
use xdr_core::{Builder, Cursor, ReadFault, XdrKind};

/// How many levels a predicate has at most.
const MAX_LEVELS: u32 = 32;

/// How many parts AND and OR have at most (ClaimPredicate in Stellar-ledger-entries.x).
const MAX_PARTS: u32 = 2;

/// CLAIM_PREDICATE_UNCONDITIONAL (Stellar-ledger-entries.x).
const CLAIM_PREDICATE_UNCONDITIONAL: i32 = 0;

/// CLAIM_PREDICATE_AND (Stellar-ledger-entries.x).
const CLAIM_PREDICATE_AND: i32 = 1;

/// CLAIM_PREDICATE_OR (Stellar-ledger-entries.x).
const CLAIM_PREDICATE_OR: i32 = 2;

/// CLAIM_PREDICATE_NOT (Stellar-ledger-entries.x).
const CLAIM_PREDICATE_NOT: i32 = 3;

/// CLAIM_PREDICATE_BEFORE_ABSOLUTE_TIME (Stellar-ledger-entries.x).
const CLAIM_PREDICATE_BEFORE_ABSOLUTE_TIME: i32 = 4;

/// CLAIM_PREDICATE_BEFORE_RELATIVE_TIME (Stellar-ledger-entries.x).
const CLAIM_PREDICATE_BEFORE_RELATIVE_TIME: i32 = 5;

/// Reads a predicate of at most 32 levels. Where a deeper one begins, the fault is `TooDeep`.
pub fn read_claim_predicate(
    alloc: Global,
    cursor: &mut Cursor<'_>,
) -> Result<ClaimPredicate, ReadFault>
    ensures { Reads cause_of result cursor.old cursor.new (claim_predicate.read cursor.old) }
{
    read_below(alloc, MAX_LEVELS, cursor)
}

/// Reads a predicate of at most so many levels.
#[cycle(predicate)]
#[tactic(auto, using(crate::proofs::Levels::levels_read))]
fn read_below(
    alloc: Global,
    levels: u32,
    cursor: &mut Cursor<'_>,
) -> Result<ClaimPredicate, ReadFault>
    ensures { Reads cause_of result cursor.old cursor.new ((predicate_below levels).read cursor.old) }
{
    if levels == 0 {
        return Err(ReadFault::Xdr(cursor.fault(XdrKind::TooDeep)));
    }
    read_level(alloc, levels - 1, cursor)
}

/// Reads a predicate that has at most so many levels below it.
#[cycle(predicate)]
fn read_level(
    alloc: Global,
    below: u32,
    cursor: &mut Cursor<'_>,
) -> Result<ClaimPredicate, ReadFault>
    ensures { Reads cause_of result cursor.old cursor.new ((predicate_of (predicate_below below)).read cursor.old) }
{
    let mut ahead = cursor.fork();
    let predicate = match ahead.i32()? {
        CLAIM_PREDICATE_UNCONDITIONAL => ClaimPredicate::Unconditional,
        CLAIM_PREDICATE_AND => ClaimPredicate::And(read_parts(alloc, below, &mut ahead)?),
        CLAIM_PREDICATE_OR => ClaimPredicate::Or(read_parts(alloc, below, &mut ahead)?),
        CLAIM_PREDICATE_NOT => ClaimPredicate::Not(read_inner(alloc, below, &mut ahead)?),
        CLAIM_PREDICATE_BEFORE_ABSOLUTE_TIME => ClaimPredicate::BeforeAbsoluteTime(ahead.i64()?),
        CLAIM_PREDICATE_BEFORE_RELATIVE_TIME => ClaimPredicate::BeforeRelativeTime(ahead.i64()?),
        _ => return Err(ReadFault::Xdr(cursor.fault(XdrKind::BadEnum))),
    };
    *cursor = ahead;
    Ok(predicate)
}

/// Reads the parts of AND or OR.
#[cycle(predicate)]
#[tactic(auto, unfolding(xdr_core::specs::Combinators::list))]
fn read_parts(
    alloc: Global,
    levels: u32,
    cursor: &mut Cursor<'_>,
) -> Result<ItemList<ClaimPredicate>, ReadFault>
    ensures { Reads cause_of result cursor.old cursor.new
        ((list_of MAX_PARTS (predicate_below levels)).read cursor.old) }
{
    let mut ahead = cursor.fork();
    let len = ahead.count(MAX_PARTS)?;
    let parts = read_many(alloc, levels, len, &mut ahead)?;
    *cursor = ahead;
    Ok(parts)
}

/// Reads `len` predicates, one after another.
#[cycle(predicate)]
fn read_many(
    alloc: Global,
    levels: u32,
    len: u32,
    cursor: &mut Cursor<'_>,
) -> Result<ItemList<ClaimPredicate>, ReadFault>
    ensures { Reads cause_of result cursor.old cursor.new (many_at (predicate_below levels) len cursor.old) }
{
    let mut ahead = cursor.fork();
    let mut parts = ItemList::with_capacity(alloc, len.min(MAX_PARTS) as usize)?;
    for _ in 0..len {
        parts.push(read_below(alloc, levels, &mut ahead)?)?;
    }
    *cursor = ahead;
    Ok(parts)
}

/// Reads what NOT is of.
#[cycle(predicate)]
#[tactic(auto, unfolding(xdr_core::specs::Combinators::option))]
fn read_inner(
    alloc: Global,
    levels: u32,
    cursor: &mut Cursor<'_>,
) -> Result<Option<Boxed<ClaimPredicate>>, ReadFault>
    ensures { Reads cause_of result cursor.old cursor.new ((optional (predicate_below levels)).read cursor.old) }
{
    let mut ahead = cursor.fork();
    if !ahead.flag()? {
        *cursor = ahead;
        return Ok(None);
    }
    let inner = Boxed::new(alloc, read_below(alloc, levels, &mut ahead)?)?;
    *cursor = ahead;
    Ok(Some(inner))
}

/// Writes a predicate of at most 32 levels: its encoding is put at the end.
pub fn write_claim_predicate(
    value: &ClaimPredicate,
    builder: &mut Builder,
) -> Result<(), AllocError>
    requires { claim_predicate.within value.now }
    ensures { OnOk result (builder.new ≡ builder.old ++ claim_predicate.encoding value.now) }
{
    write_below(value, MAX_LEVELS, builder)
}

/// Writes a predicate of at most so many levels.
#[cycle(predicate_out)]
#[tactic(auto, using(crate::proofs::Levels::written_one_level_more, crate::proofs::Levels::some_level))]
fn write_below(value: &ClaimPredicate, levels: u32, builder: &mut Builder) -> Result<(), AllocError>
    requires { (predicate_below levels).within value.now }
    ensures { OnOk result (builder.new ≡ builder.old ++ (predicate_below levels).encoding value.now) }
{
    write_level(value, levels - 1, builder)
}

/// Writes a predicate that has at most so many levels below it.
#[cycle(predicate_out)]
#[tactic(auto, unfolding(xdr_core::specs::Combinators::option))]
fn write_level(value: &ClaimPredicate, below: u32, builder: &mut Builder) -> Result<(), AllocError>
    requires { (predicate_of (predicate_below below)).within value.now }
    ensures { OnOk result (builder.new ≡ (predicate_of (predicate_below below)).onto builder.old value.now) }
{
    match value {
        ClaimPredicate::Unconditional => builder.i32(CLAIM_PREDICATE_UNCONDITIONAL),
        ClaimPredicate::And(parts) => {
            builder.i32(CLAIM_PREDICATE_AND)?;
            write_parts(parts.as_slice(), below, builder)
        }
        ClaimPredicate::Or(parts) => {
            builder.i32(CLAIM_PREDICATE_OR)?;
            write_parts(parts.as_slice(), below, builder)
        }
        ClaimPredicate::Not(None) => {
            builder.i32(CLAIM_PREDICATE_NOT)?;
            builder.flag(false)
        }
        ClaimPredicate::Not(Some(inner)) => {
            builder.i32(CLAIM_PREDICATE_NOT)?;
            builder.flag(true)?;
            write_below(inner.get(), below, builder)
        }
        ClaimPredicate::BeforeAbsoluteTime(time) => {
            builder.i32(CLAIM_PREDICATE_BEFORE_ABSOLUTE_TIME)?;
            builder.i64(*time)
        }
        ClaimPredicate::BeforeRelativeTime(seconds) => {
            builder.i32(CLAIM_PREDICATE_BEFORE_RELATIVE_TIME)?;
            builder.i64(*seconds)
        }
    }
}

/// Writes the parts of AND or OR.
#[cycle(predicate_out)]
#[tactic(auto, unfolding(xdr_core::specs::Combinators::list))]
fn write_parts(
    parts: &[ClaimPredicate],
    levels: u32,
    builder: &mut Builder,
) -> Result<(), AllocError>
    requires { (list_of MAX_PARTS (predicate_below levels)).within parts.now }
    ensures { OnOk result (builder.new ≡ (list_of MAX_PARTS (predicate_below levels)).onto builder.old parts.now) }
{
    builder.count(parts.len(), MAX_PARTS)?;
    for part in parts {
        write_below(part, levels, builder)?;
    }
    Ok(())
}
