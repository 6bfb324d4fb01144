//! Who is recorded as paying an entry's reserve.

ghost use Rattle.std.specs.Prelude.{◌≡◌};
ghost use Rattle.entry_slots.specs.EntrySponsor as spec;

use entry_map::ledger_types::{AccountId, LedgerEntry, LedgerEntryExtensionV1};

/// Who is recorded as paying the entry's reserve, if somebody is (sponsoringID of LedgerEntryExtensionV1, CAP-0033).
pub fn sponsor_in(ext: &Option<LedgerEntryExtensionV1>) -> Option<AccountId>
    ensures { result ≡ spec.sponsor_in ext.now }
{
    match ext {
        None => None,
        Some(ext) => ext.sponsoring_id,
    }
}

/// Records a sponsor, or that there is none. The extension is added for a sponsor, and never dropped.
pub fn set_sponsor(entry: &mut LedgerEntry, sponsor: Option<AccountId>)
    ensures { entry.new ≡ spec.with_sponsor sponsor entry.old }
{
    if sponsor.is_some() || entry.ext.is_some() {
        entry.ext = Some(LedgerEntryExtensionV1 {
            sponsoring_id: sponsor,
        });
    }
}
