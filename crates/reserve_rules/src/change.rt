//! Changes of a balance.

ghost use Rattle.std.specs.Prelude.{◌≡◌, ◌↔◌, ◌+ℤ◌, ◌-ℤ◌, ◌≤ℤ◌, pos, IfSome, IsNone};
ghost use Rattle.reserve_rules.specs.Reserve.{Passes, greatest_i64};

/// A balance after a change. `None` comes exactly where a credit passes what can be taken, or a debit passes what can
/// be spent.
pub fn changed(balance: i64, delta: i64, room: i64, available: i128) -> Option<i64>
    requires no_debt { pos 0 ≤ℤ balance }
    requires fits { room ≤ℤ (greatest_i64 -ℤ balance) }
    ensures refused { IsNone result ↔ Passes delta room available }
    ensures value { IfSome result (λ n. n ≡ balance +ℤ delta) }
{
    let passes = if delta < 0 {
        available < -(delta as i128)
    } else {
        room < delta
    };
    if passes { None } else { Some(balance + delta) }
}
