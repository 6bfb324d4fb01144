//! Square roots.

ghost use Rattle.std.specs.Prelude.{◌≡◌, ◌<◌, ◌^◌};
ghost use Rattle.wide_math.specs.Root.{IsRoot, square_root};

/// The greatest number whose square is at most `v`. `v` is below 2^126.
#[tactic(auto, using(crate::proofs::Roots::root_function))]
pub fn isqrt(v: u128) -> u64
    requires { v < 2 ^ 126 }
    ensures root { IsRoot v result }
    ensures function { result ≡ square_root v }
{
    v.isqrt() as u64
}
