//! What trust lines can spend and take.

ghost use Rattle.std.specs.Prelude.{◌≡◌, ◌+ℤ◌, ◌↔◌, true, false};
ghost use Rattle.reserve_rules.specs.Reserve as spec;

use crate::change::changed;
use entry_slots::ledger_types::TrustLineEntry;
use entry_slots::line_liabilities;

/// What can be spent of a trust line: its balance less what the account's offers would give.
pub fn line_available(line: &TrustLineEntry) -> i64
    requires { spec.IsLineInRange line.now }
    ensures { result ≡ spec.line_available line.now }
{
    line.balance - line_liabilities(line).selling
}

/// What a trust line can take: its limit less its balance and what the account's offers would take.
pub fn line_room(line: &TrustLineEntry) -> i64
    requires { spec.IsLineInRange line.now }
    ensures { result ≡ spec.line_room line.now }
{
    line.limit - line.balance - line_liabilities(line).buying
}

/// Changes a trust line's balance. It answers false, and leaves the line, exactly where a credit passes what the line
/// can take, or a debit passes what can be spent of it.
pub fn line_add(line: &mut TrustLineEntry, delta: i64) -> bool
    requires { spec.IsLineInRange line.old }
    ensures refused { (result ≡ false) ↔ spec.Passes delta (spec.line_room line.old) (spec.line_available line.old) }
    ensures done { result ≡ true → line.new ≡ record line.old { balance = line.old.balance +ℤ delta } }
    ensures left { result ≡ false → line.new ≡ line.old }
{
    // The limit is an i64, so what the line holds and what it can take fit one together.
    let _limit = line.limit;
    let room = line_room(line);
    let available = line_available(line);
    match changed(line.balance, delta, room, available as i128) {
        Some(balance) => {
            line.balance = balance;
            true
        }
        None => false,
    }
}
