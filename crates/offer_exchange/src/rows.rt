//! The rows of the table: one side of a trade by what v is worth, and the other by that side, rounded up or down. The
//! price is of n sheep for d wheat.

ghost use Rattle.std.specs.Prelude.{◌≡◌, ◌+◌, ◌<◌, ◌≤◌, ◌^◌};
ghost use Rattle.offer_exchange.specs.Exchange as spec;
ghost use Rattle.offer_exchange.specs.Parts.{AreParts, amounts};

use crate::rounding::Rounding;

/// How much of either moves.
#[derive(Clone, Copy)]
pub struct Amounts {
    pub wheat: u128,
    pub sheep: u128,
}

/// The quotient rounded up.
fn ceil_div(a: u128, b: u128) -> u128
    requires divides { 1 ≤ b }
    requires fits { a + b ≤ 2 ^ 128 }
    ensures { result ≡ spec.ceil_div a b }
{
    (a + (b - 1)) / b
}

/// The wheat that v is worth, and sheep for it, rounded up.
#[tactic(auto, using(crate::proofs::Below::whole_below))]
fn wheat_then_up(n: u128, d: u128, v: u128) -> Amounts
    requires price { AreParts n d }
    requires small { v < 2 ^ 96 }
    ensures { amounts result ≡ spec.wheat_then_up n d v }
{
    let wheat = v / n;
    let sheep = ceil_div(wheat * n, d);
    Amounts { wheat, sheep }
}

/// The wheat that v is worth, and sheep for it, rounded down.
#[tactic(auto, using(crate::proofs::Below::whole_below))]
fn wheat_then_down(n: u128, d: u128, v: u128) -> Amounts
    requires price { AreParts n d }
    requires small { v < 2 ^ 96 }
    ensures { amounts result ≡ spec.wheat_then_down n d v }
{
    let wheat = v / n;
    let sheep = wheat * n / d;
    Amounts { wheat, sheep }
}

/// The sheep that v is worth, and wheat for it, rounded up.
#[tactic(auto, using(crate::proofs::Below::whole_below))]
fn sheep_then_up(n: u128, d: u128, v: u128) -> Amounts
    requires price { AreParts n d }
    requires small { v < 2 ^ 96 }
    ensures { amounts result ≡ spec.sheep_then_up n d v }
{
    let sheep = v / d;
    let wheat = ceil_div(sheep * d, n);
    Amounts { wheat, sheep }
}

/// The sheep that v is worth, and wheat for it, rounded down.
#[tactic(auto, using(crate::proofs::Below::whole_below))]
fn sheep_then_down(n: u128, d: u128, v: u128) -> Amounts
    requires price { AreParts n d }
    requires small { v < 2 ^ 96 }
    ensures { amounts result ≡ spec.sheep_then_down n d v }
{
    let sheep = v / d;
    let wheat = sheep * d / n;
    Amounts { wheat, sheep }
}

/// Where wheat stays. `most` is the sheep that can go over.
pub fn some_stays(rounding: Rounding, n: u128, d: u128, v: u128, most: u128) -> Amounts
    requires price { AreParts n d }
    requires small { v < 2 ^ 96 }
    ensures { amounts result ≡ spec.some_stays rounding n d v most }
{
    match rounding {
        Rounding::StrictSend => Amounts {
            wheat: v / n,
            sheep: most,
        },
        Rounding::StrictReceive => wheat_then_up(n, d, v),
        Rounding::Normal if d < n => wheat_then_up(n, d, v),
        Rounding::Normal => sheep_then_down(n, d, v),
    }
}

/// Where none stays.
pub fn used_up(n: u128, d: u128, v: u128) -> Amounts
    requires price { AreParts n d }
    requires small { v < 2 ^ 96 }
    ensures { amounts result ≡ spec.used_up n d v }
{
    if d < n {
        wheat_then_down(n, d, v)
    } else {
        sheep_then_up(n, d, v)
    }
}
