//! Limits of what is sold and bought.

ghost use Rattle.std.specs.Prelude.{◌≡◌, ◌-◌, ◌≤ℤ◌, min, pos, unsigned_abs};
ghost use Rattle.op_offers.specs.Calls.{IsLimitLow};
ghost use Rattle.op_offers.specs.Managing.{limit};
ghost use Rattle.op_offers.specs.Selling as spec;

/// What is left of a limit once so much is used; each is at least 0.
fn left_of(most: i64, used: i64) -> i64
    requires most { pos 0 ≤ℤ most }
    requires used { pos 0 ≤ℤ used }
    ensures { result ≡ pos (unsigned_abs most - unsigned_abs used) }
{
    if most < used { 0 } else { most - used }
}

/// The lesser of two numbers of at least 0.
fn lesser(a: i64, b: i64) -> i64
    requires a { pos 0 ≤ℤ a }
    requires b { pos 0 ≤ℤ b }
    ensures { result ≡ pos (min (unsigned_abs a) (unsigned_abs b)) }
{
    if a < b { a } else { b }
}

/// What is there, up to what is left of a limit; each is at least 0.
pub fn capped(most: Option<i64>, used: i64, there: i64) -> i64
    requires most { IsLimitLow most }
    requires used { pos 0 ≤ℤ used }
    requires there { pos 0 ≤ℤ there }
    ensures { result ≡ pos (spec.capped (limit most) (unsigned_abs used) (unsigned_abs there)) }
{
    match most {
        None => there,
        Some(number) => lesser(left_of(number, used), there),
    }
}

/// A limit, or the greatest number where there is none.
pub fn limit_of(most: Option<i64>) -> i64
    requires { IsLimitLow most }
    ensures value { unsigned_abs result ≡ spec.limit_of (limit most) }
    ensures low { pos 0 ≤ℤ result }
{
    match most {
        None => i64::MAX,
        Some(number) => number,
    }
}
