//! Quotients of products.

ghost use Rattle.std.specs.Prelude.{◌≡◌, ◌+◌, ◌*◌, ◌<◌, ◌≤◌, ◌^◌, pos, ◌≤ℤ◌, unsigned_abs};
ghost use Rattle.std.specs.Option.{SomeIff};
ghost use Rattle.wide_math.specs.Quotient.{quotient};

/// Which way a quotient that isn't whole is rounded.
#[derive(Clone, Copy, PartialEq, Eq)]
pub enum Round {
    /// To the next whole number below.
    Down,
    /// To the next whole number above.
    Up,
}

/// `a * b / c`, rounded. `None` comes exactly where the rounded quotient exceeds the greatest i64.
///
/// `a` and `b` are at least 0 and `c` is at least 1.
pub fn mul_div(a: i64, b: i64, c: i64, round: Round) -> Option<i64>
    requires a_is_no_debt { pos 0 ≤ℤ a }
    requires b_is_no_debt { pos 0 ≤ℤ b }
    requires c_divides { pos 1 ≤ℤ c }
    ensures { let q = quotient round (unsigned_abs a * unsigned_abs b) (unsigned_abs c) in
        SomeIff result (q < 2 ^ 63) (pos q) }
{
    signed(rounded(product_of(a, b), c.unsigned_abs() as u128, round))
}

/// `a * b * k / d`, rounded. `None` comes exactly where the rounded quotient exceeds the greatest i64.
///
/// `a` and `b` are at least 0, `k` is at most 10000, and `d` is at least 1 and below 2^100.
pub fn scaled_div(a: i64, b: i64, k: u32, d: u128, round: Round) -> Option<i64>
    requires a_is_no_debt { pos 0 ≤ℤ a }
    requires b_is_no_debt { pos 0 ≤ℤ b }
    requires small_scale { k ≤ 10000 }
    requires d_divides { 1 ≤ d }
    requires small_divisor { d < 2 ^ 100 }
    ensures { let q = quotient round (unsigned_abs a * unsigned_abs b * k) d in SomeIff result (q < 2 ^ 63) (pos q) }
{
    scaled(product_of(a, b), k as u128, d, round)
}

/// `product * k / d`, rounded. The whole part of `product / d` is scaled apart from the rest, since `product * k` may
/// need more than 128 bits.
#[tactic(auto, using(crate::proofs::Split::quotient_split, crate::proofs::Split::quotient_zero))]
fn scaled(product: u128, k: u128, d: u128, round: Round) -> Option<i64>
    requires small_product { product < 2 ^ 126 }
    requires small_scale { k ≤ 10000 }
    requires d_divides { 1 ≤ d }
    requires small_divisor { d < 2 ^ 100 }
    ensures { let q = quotient round (product * k) d in SomeIff result (q < 2 ^ 63) (pos q) }
{
    // A scale of 0 gives 0 however great the whole part is; any other leaves the answer at least as great.
    if k == 0 {
        return Some(0);
    }
    let whole = product / d;
    if whole > i64::MAX as u128 {
        return None;
    }
    signed(whole * k + rounded(product % d * k, d, round))
}

/// The product of two numbers that are at least 0.
fn product_of(a: i64, b: i64) -> u128
    requires a_is_no_debt { pos 0 ≤ℤ a }
    requires b_is_no_debt { pos 0 ≤ℤ b }
    ensures value { result ≡ unsigned_abs a * unsigned_abs b }
    ensures bound { result < 2 ^ 126 }
{
    a.unsigned_abs() as u128 * b.unsigned_abs() as u128
}

/// The rounded quotient of two numbers whose sum fits.
fn rounded(dividend: u128, divisor: u128, round: Round) -> u128
    requires divides { 1 ≤ divisor }
    requires fits { dividend + divisor ≤ 2 ^ 128 }
    ensures { result ≡ quotient round dividend divisor }
{
    match round {
        Round::Down => dividend / divisor,
        Round::Up => (dividend + (divisor - 1)) / divisor,
    }
}

/// The number as an i64, where it is at most the greatest.
fn signed(value: u128) -> Option<i64>
    ensures { SomeIff result (value < 2 ^ 63) (pos value) }
{
    i64::try_from(value).ok()
}
