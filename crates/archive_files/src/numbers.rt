//! The numbers of a history's headers, in order.

ghost use Rattle.std.specs.Prelude.{◌≡◌, ◌↔◌, ℕ, List, map, IsTrue, IfOk, Contains};
ghost use Rattle.std.specs.List.Sorted.{IsNonDecreasing};
ghost use Rattle.archive_files.specs.Chain as spec;
ghost use Rattle.archive_files.specs.Screening.{AreNumbersOf};

use crate::facts::HeaderFact;
use std::alloc::{AllocError, Global};

/// The numbers of headers, in the order of the headers.
fn numbers_of(alloc: Global, headers: &[HeaderFact]) -> Result<Vec<u32>, AllocError>
    ensures { IfOk result (λ numbers. numbers.items ≡ spec.numbers headers.now) }
{
    let mut numbers = Vec::with_capacity(alloc, headers.len())?;
    for header in headers {
        numbers.push(header.seq)?;
    }
    Ok(numbers)
}

/// The numbers of headers, in ascending order.
pub(crate) fn sorted_numbers(alloc: Global, headers: &[HeaderFact]) -> Result<Vec<u32>, AllocError>
    ensures { IfOk result (λ numbers. AreNumbersOf numbers.items headers.now) }
{
    let mut numbers = numbers_of(alloc, headers)?;
    numbers.sort_unstable();
    Ok(numbers)
}

/// Whether a number is one of some in ascending order.
pub(crate) fn is_one_of(numbers: &[u32], number: u32) -> bool
    requires { IsNonDecreasing numbers.now }
    ensures { IsTrue result ↔ Contains numbers.now number }
{
    numbers.binary_search(&number).is_ok()
}
