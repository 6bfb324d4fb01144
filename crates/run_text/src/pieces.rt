//! Words and numbers of a line.

ghost use Rattle.std.specs.Prelude.{◌≡◌, ◌++◌, OnOk, IfOk};
ghost use Rattle.std.specs.Fmt.{decimal, signed_decimal};
ghost use Rattle.run_outcome.specs.Lines.{spaced, hash_text};

use ledger_types::Hash;
use std::alloc::{AllocError, Global};

/// Puts a word at the end of a text, after a space.
pub(crate) fn push_word(text: &mut Vec<u8>, word: &[u8]) -> Result<(), AllocError>
    ensures { OnOk result (text.new.items ≡ text.old.items ++ spaced word.now) }
{
    text.push(b' ')?;
    text.extend_from_slice(word)
}

/// Puts the decimal digits of a number at the end of a text.
pub(crate) fn push_number(alloc: Global, text: &mut Vec<u8>, number: u128) -> Result<(), AllocError>
    ensures { OnOk result (text.new.items ≡ text.old.items ++ decimal number) }
{
    let digits = number.to_string(alloc)?;
    text.extend_from_slice(digits.as_bytes())
}

/// Puts a number at the end of a text, after a space.
pub(crate) fn push_number_word(
    alloc: Global,
    text: &mut Vec<u8>,
    number: u128,
) -> Result<(), AllocError>
    ensures { OnOk result (text.new.items ≡ text.old.items ++ spaced (decimal number)) }
{
    let digits = number.to_string(alloc)?;
    push_word(text, digits.as_bytes())
}

/// Puts a number with its sign at the end of a text, after a space.
pub(crate) fn push_signed_word(
    alloc: Global,
    text: &mut Vec<u8>,
    number: i64,
) -> Result<(), AllocError>
    ensures { OnOk result (text.new.items ≡ text.old.items ++ spaced (signed_decimal number)) }
{
    let digits = number.to_string(alloc)?;
    push_word(text, digits.as_bytes())
}

/// Puts the lower-case hexadecimal digits of a hash at the end of a text.
pub(crate) fn push_hash(alloc: Global, text: &mut Vec<u8>, digest: &Hash) -> Result<(), AllocError>
    ensures { OnOk result (text.new.items ≡ text.old.items ++ hash_text digest.now) }
{
    let digits = hex::encode(alloc, digest.0.as_slice())?;
    text.extend_from_slice(digits.as_bytes())
}

/// Puts a hash at the end of a text, after a space.
pub(crate) fn push_hash_word(
    alloc: Global,
    text: &mut Vec<u8>,
    digest: &Hash,
) -> Result<(), AllocError>
    ensures { OnOk result (text.new.items ≡ text.old.items ++ spaced (hash_text digest.now)) }
{
    let digits = hex::encode(alloc, digest.0.as_slice())?;
    push_word(text, digits.as_bytes())
}
