//! Values that have nothing after their discriminant.

ghost use Rattle.std.specs.Prelude.{◌≡◌, OnOk, MatchResult, Ok, Err};
ghost use Rattle.xdr_core.specs.Position.{Position, Reads, itself};
ghost use Rattle.xdr_core.specs.Combinators.{pick};
ghost use Rattle.xdr_core.specs.Xdr.{no_arm};
ghost use Rattle.xdr_results.specs.Coded.{plain_arms, codes};

use op_types::Coded;
use std::alloc::AllocError;
use xdr_core::{Builder, Cursor, XdrFault, XdrKind};

/// The value whose discriminant is `code`, and that has nothing after it. `start` is at the discriminant.
#[tactic(auto, using(crate::proofs::Plain::pick_plain))]
pub fn plain_value<C: Coded>(code: i32, start: &Cursor<'_>) -> Result<C, XdrFault>
    ensures { MatchResult result
        (λ value. (p : Position) → pick (plain_arms C.number C.values) no_arm start.now (code, p) ≡ Ok (value, p))
        (λ fault. (p : Position) → pick (plain_arms C.number C.values) no_arm start.now (code, p) ≡ Err fault) }
{
    match C::from_code(code) {
        Some(value) => Ok(value),
        None => Err(start.fault(XdrKind::BadEnum)),
    }
}

/// Reads a value that has nothing after its discriminant.
pub fn read_code<C: Coded>(cursor: &mut Cursor<'_>) -> Result<C, XdrFault>
    ensures { Reads itself result cursor.old cursor.new ((codes C.number C.values).read cursor.old) }
{
    let mut ahead = cursor.fork();
    let value = plain_value::<C>(ahead.i32()?, cursor)?;
    *cursor = ahead;
    Ok(value)
}

/// Writes a value that has nothing after its discriminant.
pub fn write_code<C: Coded>(value: &C, builder: &mut Builder) -> Result<(), AllocError>
    ensures { OnOk result (builder.new ≡ (codes C.number C.values).onto builder.old value.now) }
{
    builder.i32(value.code())
}
