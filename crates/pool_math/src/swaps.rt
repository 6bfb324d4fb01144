//! Swaps with a pool.

ghost use Rattle.std.specs.Prelude.{◌≡◌, ◌*◌, ◌<◌, ◌^◌, pos, ◌≤ℤ◌, ◌<ℤ◌, unsigned_abs, IfSome};
ghost use Rattle.std.specs.Option.{SomeIff};
ghost use Rattle.pool_math.specs.Pools as spec;
ghost use Rattle.pool_math.specs.Pools.{given_for, CanGive, taken_for, CanTake};
ghost use Rattle.pool_math.specs.Laws.{IsSwapped};

use wide_math::{Round, scaled_div};

/// Of so many parts of what is put ..
const PARTS: u32 = 10_000;

/// .. so many count. The others are the fee.
const COUNTED: u32 = 9_970;

/// An amount in parts.
fn in_parts(amount: i64, parts: u32) -> u128
    requires amount { pos 0 ≤ℤ amount }
    ensures { result ≡ parts * unsigned_abs amount }
{
    parts as u128 * amount.unsigned_abs() as u128
}

/// What a pool that isn't empty gives.
fn given_for(x: i64, y: i64, put: i64) -> i64
    requires x { pos 1 ≤ℤ x }
    requires y { pos 1 ≤ℤ y }
    requires put { pos 0 ≤ℤ put }
    ensures value { result ≡ pos (spec.given_for (unsigned_abs x) (unsigned_abs y) (unsigned_abs put)) }
    ensures swapped { IsSwapped (unsigned_abs x) (unsigned_abs y) (unsigned_abs put)
        (spec.given_for (unsigned_abs x) (unsigned_abs y) (unsigned_abs put)) }
{
    let divisor = in_parts(x, PARTS) + in_parts(put, COUNTED);
    match scaled_div(y, put, COUNTED, divisor, Round::Down) {
        Some(given) => given,
        // It is less than the pool has, so that it fits.
        None => 0,
    }
}

/// What a pool that isn't empty takes for a part of what it has, where that fits.
fn taken_for(x: i64, y: i64, want: i64) -> Option<i64>
    requires x { pos 1 ≤ℤ x }
    requires want { pos 0 ≤ℤ want }
    requires left { want <ℤ y }
    ensures value { let taken = spec.taken_for (unsigned_abs x) (unsigned_abs y) (unsigned_abs want) in
        SomeIff result (taken < 2 ^ 63) (pos taken) }
    ensures swapped { IsSwapped (unsigned_abs x) (unsigned_abs y)
        (spec.taken_for (unsigned_abs x) (unsigned_abs y) (unsigned_abs want)) (unsigned_abs want) }
{
    scaled_div(x, want, PARTS, in_parts(y - want, COUNTED), Round::Up)
}

/// What a pool that has `x` of one asset and `y` of the other gives of the other for `put` of the one, rounded down.
/// Each is at least 0. `None` comes exactly where the pool is empty, where it would have more of the one than the
/// greatest i64, or where nothing would be given.
pub fn swap_in(x: i64, y: i64, put: i64) -> Option<i64>
    requires x { pos 0 ≤ℤ x }
    requires y { pos 0 ≤ℤ y }
    requires put { pos 0 ≤ℤ put }
    ensures value { SomeIff result (CanGive (unsigned_abs x) (unsigned_abs y) (unsigned_abs put))
        (pos (given_for (unsigned_abs x) (unsigned_abs y) (unsigned_abs put))) }
    ensures swapped { IfSome result (λ given.
        IsSwapped (unsigned_abs x) (unsigned_abs y) (unsigned_abs put) (unsigned_abs given)) }
{
    if x == 0 || y == 0 || put > i64::MAX - x {
        return None;
    }
    match given_for(x, y, put) {
        0 => None,
        given => Some(given),
    }
}

/// What a pool that has `x` of one asset and `y` of the other takes of the one for `want` of the other, rounded up.
/// Each is at least 0. `None` comes exactly where the pool is empty, where it hasn't more than is wanted, or where it
/// would have more of the one than the greatest i64.
pub fn swap_out(x: i64, y: i64, want: i64) -> Option<i64>
    requires x { pos 0 ≤ℤ x }
    requires y { pos 0 ≤ℤ y }
    requires want { pos 0 ≤ℤ want }
    ensures value { SomeIff result (CanTake (unsigned_abs x) (unsigned_abs y) (unsigned_abs want))
        (pos (taken_for (unsigned_abs x) (unsigned_abs y) (unsigned_abs want))) }
    ensures swapped { IfSome result (λ taken.
        IsSwapped (unsigned_abs x) (unsigned_abs y) (unsigned_abs taken) (unsigned_abs want)) }
{
    // An empty pool has nothing left of the other.
    if x == 0 || want >= y {
        return None;
    }
    match taken_for(x, y, want) {
        Some(taken) if taken <= i64::MAX - x => Some(taken),
        _ => None,
    }
}
