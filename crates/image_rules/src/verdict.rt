//! The first rule of entries that is broken.

ghost use Rattle.std.specs.Prelude.{IfOk};
ghost use Rattle.entry_map.specs.EntryMap.{EntryMap};
ghost use Rattle.close_rules.specs.EntryRules as spec;
ghost use Rattle.image_rules.specs.RuleLists.{counted_rules};
ghost use Rattle.image_rules.specs.Surveys.{IsSurvey};
ghost use Rattle.image_rules.specs.Tallies.{IsAgreement};

use crate::agreement::{Agreement, agreement_of};
use crate::flags::both;
use crate::liabilities::are_liable;
use crate::lumens::is_total;
use crate::pools::are_pools_counted;
use crate::sponsorship::are_sponsors_counted;
use crate::subentries::are_subentries_counted;
use crate::survey::{Survey, survey_of};
use close_rules::ImageRule;
use ledger_types::LedgerHeader;
use level_entries::PlacedEntries;
use std::alloc::AllocError;

/// The first of the rules on what entries count that is broken, if one is.
fn first_of_counted(
    header: &LedgerHeader,
    survey: &Survey,
    lumens: i128,
    agreement: &Agreement,
) -> Option<ImageRule>
    ensures { (m : EntryMap) → IsSurvey header.now m survey.now lumens → IsAgreement m agreement.now
        → spec.IsFirstBroken header.now m counted_rules result }
{
    if !are_liable(agreement) {
        return Some(ImageRule::Liabilities);
    }
    if !are_subentries_counted(survey.few, agreement) {
        return Some(ImageRule::Subentries);
    }
    if !are_sponsors_counted(survey.fitting, agreement) {
        return Some(ImageRule::Sponsorship);
    }
    if !are_pools_counted(survey.filled, agreement) {
        return Some(ImageRule::Pools);
    }
    if !is_total(lumens, header.fee_pool, header.total_coins) {
        return Some(ImageRule::Lumens);
    }
    None
}

/// The first rule that is broken of entries that are all in their ranges, if one is.
fn first_in_survey(
    header: &LedgerHeader,
    entries: &PlacedEntries<'_>,
    survey: &Survey,
    lumens: i128,
) -> Result<Option<ImageRule>, AllocError>
    requires { IsSurvey header.now entries.now survey.now lumens }
    ensures { IfOk result (λ broken. spec.IsFirstBroken header.now entries.now spec.entry_rules broken) }
{
    if !both(survey.owned, survey.apart) {
        return Ok(Some(ImageRule::Owner));
    }
    let agreement = agreement_of(&survey.tallies, entries)?;
    Ok(first_of_counted(header, survey, lumens, &agreement))
}

/// The first rule of the entries after a ledger that is broken, if one is. Each entry is decoded twice: once for what
/// is asked of it by itself and for what it counts for others, and once for what it states of what others count.
pub fn first_broken(
    header: &LedgerHeader,
    entries: &PlacedEntries<'_>,
) -> Result<Option<ImageRule>, AllocError>
    ensures { IfOk result (λ broken. spec.IsFirstBroken header.now entries.now spec.entry_rules broken) }
{
    match survey_of(header, entries)? {
        None => Ok(Some(ImageRule::Entry)),
        Some(found) => first_in_survey(header, entries, &found.0, found.1),
    }
}
