//! The order of fractions.

ghost use Rattle.std.specs.Prelude.{◌≡◌, ◌*◌, pos, ◌≤ℤ◌, unsigned_abs};
ghost use Rattle.std.specs.Ordering.{nat_cmp};

use std::cmp::Ordering;

/// Compares the fractions `a.0 / a.1` and `b.0 / b.1` exactly. All four parts are at least 1.
pub fn frac_cmp(a: (i32, i32), b: (i32, i32)) -> Ordering
    requires a_over { pos 1 ≤ℤ a.0 }
    requires a_under { pos 1 ≤ℤ a.1 }
    requires b_over { pos 1 ≤ℤ b.0 }
    requires b_under { pos 1 ≤ℤ b.1 }
    ensures { result ≡ nat_cmp (unsigned_abs a.0 * unsigned_abs b.1) (unsigned_abs b.0 * unsigned_abs a.1) }
{
    // Both products are below 2^62.
    let a_scaled = a.0.unsigned_abs() as u64 * b.1.unsigned_abs() as u64;
    let b_scaled = b.0.unsigned_abs() as u64 * a.1.unsigned_abs() as u64;
    a_scaled.cmp(&b_scaled)
}
