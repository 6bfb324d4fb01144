//! Prices and liabilities.

ghost use Rattle.std.specs.Prelude.{◌≡◌, OnOk};
ghost use Rattle.xdr_core.specs.Position.{Reads, itself};
ghost use Rattle.xdr_entries.specs.Basic as spec;

use ledger_types::{Liabilities, Price};
use std::alloc::AllocError;
use xdr_core::{Builder, Cursor, XdrFault};

/// Reads a price.
#[tactic(auto, unfolding(crate::specs::Basic::price))]
pub fn read_price(cursor: &mut Cursor<'_>) -> Result<Price, XdrFault>
    ensures { Reads itself result cursor.old cursor.new (spec.price.read cursor.old) }
{
    let mut ahead = cursor.fork();
    let price = Price {
        n: ahead.i32()?,
        d: ahead.i32()?,
    };
    *cursor = ahead;
    Ok(price)
}

/// Writes a price.
#[tactic(auto, unfolding(crate::specs::Basic::price))]
pub fn write_price(value: &Price, builder: &mut Builder) -> Result<(), AllocError>
    ensures { OnOk result (builder.new ≡ spec.price.onto builder.old value.now) }
{
    builder.i32(value.n)?;
    builder.i32(value.d)
}

/// Reads liabilities.
#[tactic(auto, unfolding(crate::specs::Basic::liabilities))]
pub fn read_liabilities(cursor: &mut Cursor<'_>) -> Result<Liabilities, XdrFault>
    ensures { Reads itself result cursor.old cursor.new (spec.liabilities.read cursor.old) }
{
    let mut ahead = cursor.fork();
    let liabilities = Liabilities {
        buying: ahead.i64()?,
        selling: ahead.i64()?,
    };
    *cursor = ahead;
    Ok(liabilities)
}

/// Writes liabilities.
#[tactic(auto, unfolding(crate::specs::Basic::liabilities))]
pub fn write_liabilities(value: &Liabilities, builder: &mut Builder) -> Result<(), AllocError>
    ensures { OnOk result (builder.new ≡ spec.liabilities.onto builder.old value.now) }
{
    builder.i64(value.buying)?;
    builder.i64(value.selling)
}
