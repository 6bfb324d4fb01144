//! Rule 9: what offers bind is bound where their sellers hold it.

ghost use Rattle.std.specs.Prelude.{◌↔◌, IsTrue};
ghost use Rattle.entry_map.specs.EntryMap.{EntryMap};
ghost use Rattle.close_rules.specs.EntryRules.{AreLiable};
ghost use Rattle.image_rules.specs.Tallies.{IsAgreement};

use crate::agreement::Agreement;
use crate::flags::both;

/// Whether liabilities are those of all offers.
pub fn are_liable(agreement: &Agreement) -> bool
    ensures { (m : EntryMap) → IsAgreement m agreement.now → (IsTrue result ↔ AreLiable m) }
{
    both(agreement.selling, agreement.buying)
}
