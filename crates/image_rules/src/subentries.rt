//! Rule 10: subentries are counted, and few.

ghost use Rattle.std.specs.Prelude.{◌↔◌, IsTrue};
ghost use Rattle.entry_map.specs.EntryMap.{EntryMap};
ghost use Rattle.close_rules.specs.entry_sums.Sums.{EachEntry};
ghost use Rattle.close_rules.specs.legal_rules.Bounds.{AreSubentriesFew};
ghost use Rattle.close_rules.specs.EntryRules.{AreSubentriesCounted};
ghost use Rattle.image_rules.specs.Tallies.{IsAgreement};

use crate::agreement::Agreement;
use crate::flags::both;
use ledger_types::LedgerEntryBody;

/// Whether an account has at most 1000 subentries.
pub fn are_subentries_few(body: &LedgerEntryBody) -> bool
    ensures { IsTrue result ↔ AreSubentriesFew body.now }
{
    match body {
        LedgerEntryBody::Account(account) => account.num_sub_entries <= 1000,
        _ => true,
    }
}

/// Whether each account states how many subentries it has, and has few, if each has few.
pub fn are_subentries_counted(few: bool, agreement: &Agreement) -> bool
    ensures { (m : EntryMap) → (IsTrue few ↔ EachEntry (λ k e. AreSubentriesFew e.body) m) → IsAgreement m agreement.now
        → (IsTrue result ↔ AreSubentriesCounted m) }
{
    both(few, agreement.subentries)
}
