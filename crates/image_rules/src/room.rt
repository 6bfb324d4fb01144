//! Room for what is to be bought.

ghost use Rattle.std.specs.Prelude.{◌↔◌, ◌+ℤ◌, ◌≤ℤ◌, IsTrue};

/// Whether what is to be bought fits beside a balance within a limit, all in units of 10^-7. The sum may pass 64 bits.
pub fn fits_within(balance: i64, buying: i64, limit: i64) -> bool
    ensures { IsTrue result ↔ ((balance +ℤ buying) ≤ℤ limit) }
{
    let sum = i128::from(balance) + i128::from(buying);
    sum <= i128::from(limit)
}
