//! Rule 11: sponsored reserves are counted, for those who pay and those who are paid for.

ghost use Rattle.std.specs.Prelude.{◌↔◌, IsTrue};
ghost use Rattle.entry_map.specs.EntryMap.{EntryMap};
ghost use Rattle.close_rules.specs.entry_sums.Sums.{EachEntry};
ghost use Rattle.close_rules.specs.legal_rules.Bounds.{DoReservesFit};
ghost use Rattle.close_rules.specs.EntryRules.{AreSponsorsCounted};
ghost use Rattle.image_rules.specs.Tallies.{IsAgreement};

use crate::agreement::Agreement;
use crate::flags::both;
use entry_slots::num_sponsoring;
use ledger_types::LedgerEntryBody;

/// Whether an account's subentries and the reserves that it pays as a sponsor fit 32 bits together.
pub fn do_reserves_fit(body: &LedgerEntryBody) -> bool
    ensures { IsTrue result ↔ DoReservesFit body.now }
{
    match body {
        LedgerEntryBody::Account(account) => {
            account.num_sub_entries <= u32::MAX - num_sponsoring(account)
        }
        _ => true,
    }
}

/// Whether each account states how many reserves it pays and how many of its own others pay, and these fit, if all fit.
pub fn are_sponsors_counted(fitting: bool, agreement: &Agreement) -> bool
    ensures { (m : EntryMap) → (IsTrue fitting ↔ EachEntry (λ k e. DoReservesFit e.body) m)
        → IsAgreement m agreement.now → (IsTrue result ↔ AreSponsorsCounted m) }
{
    let sponsors = both(agreement.sponsoring, agreement.sponsored);
    both(fitting, sponsors)
}
