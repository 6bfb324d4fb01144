//! The lines of statuses that have numbers.

ghost use Rattle.std.specs.Prelude.{◌≡◌, ◌++◌, IfOk};
ghost use Rattle.std.specs.Fmt.{decimal};
ghost use Rattle.run_outcome.specs.Statuses as spec;
ghost use Rattle.run_outcome.specs.declared.status.Status.TheVariants as status;

use crate::pieces::push_number;
use run_outcome::close_rules::ImageRule;
use std::alloc::{AllocError, Global};

/// The line of a text and a number.
fn numbered_line(alloc: Global, text: &[u8], number: u128) -> Result<Vec<u8>, AllocError>
    ensures { IfOk result (λ line. line.items ≡ spec.ended_line (text.now ++ decimal number)) }
{
    let mut line = text.to_vec(alloc)?;
    push_number(alloc, &mut line, number)?;
    line.push(b'\n')?;
    Ok(line)
}

/// The line of a fault of a store.
pub fn bad_store_line(alloc: Global, file: u8, index: u64) -> Result<Vec<u8>, AllocError>
    ensures { IfOk result (λ line. line.items ≡ spec.status_line (status.BadStore file index)) }
{
    let mut line = b"bad store at ".to_vec(alloc)?;
    push_number(alloc, &mut line, u128::from(file))?;
    line.push(b' ')?;
    push_number(alloc, &mut line, u128::from(index))?;
    line.push(b'\n')?;
    Ok(line)
}

/// The line of an input that is cut.
pub fn bad_input_line(alloc: Global, at: u128) -> Result<Vec<u8>, AllocError>
    ensures { IfOk result (λ line. line.items ≡ spec.status_line (status.BadInput at)) }
{
    numbered_line(alloc, b"bad input at ", at)
}

/// The line of an image that breaks a rule.
pub fn bad_image_line(alloc: Global, rule: ImageRule) -> Result<Vec<u8>, AllocError>
    ensures { IfOk result (λ line. line.items ≡ spec.status_line (status.BadImage rule)) }
{
    numbered_line(alloc, b"bad image rule ", u128::from(rule.number()))
}
