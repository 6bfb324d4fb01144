//! The texts that a sample is made from.

ghost use Rattle.std.specs.Prelude.{◌≡◌, ◌++◌, ◌∷◌, OnOk, IfOk};
ghost use Rattle.std.specs.Fmt.{decimal};
ghost use Rattle.sample_ledger.specs.Accounts as spec;

use std::alloc::{AllocError, Global};

/// Puts a number at the end of a text, after a space.
fn push_number(alloc: Global, text: &mut Vec<u8>, number: u32) -> Result<(), AllocError>
    ensures { OnOk result (text.new.items ≡ text.old.items ++ 32 ∷ decimal number) }
{
    text.push(b' ')?;
    let digits = number.to_string(alloc)?;
    text.extend_from_slice(digits.as_bytes())
}

/// The text of a kind with these numbers.
pub(crate) fn sample_text(
    alloc: Global,
    kind: &[u8],
    numbers: &[u32],
) -> Result<Vec<u8>, AllocError>
    ensures { IfOk result (λ text. text.items ≡ spec.sample_text kind.now numbers.now) }
{
    let mut text = b"sample ".to_vec(alloc)?;
    text.extend_from_slice(kind)?;
    for number in numbers {
        push_number(alloc, &mut text, *number)?;
    }
    Ok(text)
}
