//! The zero rules: what a trade that is half or unfair moves is nothing.

ghost use Rattle.std.specs.Prelude.{◌≡◌, ◌<◌, ◌^◌};
ghost use Rattle.offer_exchange.specs.Exchange as spec;
ghost use Rattle.offer_exchange.specs.Parts.{AreParts, amounts};

use crate::rounding::Rounding;
use crate::rows::Amounts;

/// Whether one side gets nothing. Who must send all may send it for no wheat.
fn is_half(rounding: Rounding, moved: Amounts) -> bool
    ensures { result ≡ spec.is_half rounding (amounts moved) }
{
    match rounding {
        Rounding::StrictSend => moved.sheep == 0,
        Rounding::Normal | Rounding::StrictReceive => moved.wheat == 0 || moved.sheep == 0,
    }
}

/// Whether the price that results is off by more than a hundredth. A taker who asked for a strict amount bears it where
/// the wheat costs more.
fn is_unfair(rounding: Rounding, n: u128, d: u128, moved: Amounts) -> bool
    requires price { AreParts n d }
    requires small_wheat { moved.wheat < 2 ^ 64 }
    requires small_sheep { moved.sheep < 2 ^ 64 }
    ensures { result ≡ spec.is_unfair rounding n d (amounts moved) }
{
    let wheat_value = n * moved.wheat;
    let sheep_value = d * moved.sheep;
    let too_cheap = wheat_value + 100 * sheep_value < 100 * wheat_value;
    let too_dear = wheat_value + 100 * wheat_value < 100 * sheep_value;
    match rounding {
        Rounding::Normal => too_cheap || too_dear,
        Rounding::StrictSend | Rounding::StrictReceive => too_cheap,
    }
}

/// What moves by the zero rules.
pub fn unless_void(rounding: Rounding, n: u128, d: u128, moved: Amounts) -> Amounts
    requires price { AreParts n d }
    requires small_wheat { moved.wheat < 2 ^ 64 }
    requires small_sheep { moved.sheep < 2 ^ 64 }
    ensures { amounts result ≡ spec.unless_void rounding n d (amounts moved) }
{
    if is_half(rounding, moved) || is_unfair(rounding, n, d, moved) {
        Amounts { wheat: 0, sheep: 0 }
    } else {
        moved
    }
}
