//! What trust lines' extensions say. What isn't there reads as zeros, and is added for a value that isn't 0.

ghost use Rattle.std.specs.Prelude.{◌≡◌, Some};
ghost use Rattle.entry_slots.specs.LineExtensions as spec;

use crate::account_extensions::{NO_LIABILITIES, is_nothing};
use entry_map::ledger_types::{
    Liabilities, TrustLineEntry, TrustLineEntryExtensionV1, TrustLineEntryExtensionV2,
};

/// What the account's offers would take and give of the line.
pub fn line_liabilities(line: &TrustLineEntry) -> Liabilities
    ensures { result ≡ spec.line_liabilities line.now }
{
    match line.ext {
        Some(ext) => ext.liabilities,
        None => NO_LIABILITIES,
    }
}

/// Gives a line other liabilities.
pub fn set_line_liabilities(line: &mut TrustLineEntry, liabilities: Liabilities)
    ensures { line.new ≡ spec.with_line_liabilities liabilities line.old }
{
    match line.ext {
        Some(ext) => {
            line.ext = Some(TrustLineEntryExtensionV1 {
                liabilities,
                ext: ext.ext,
            });
        }
        None if is_nothing(liabilities) => {}
        None => {
            line.ext = Some(TrustLineEntryExtensionV1 {
                liabilities,
                ext: None,
            });
        }
    }
}

/// How many of the account's pool-share lines are of pools that have the line's asset.
pub fn use_count(line: &TrustLineEntry) -> i32
    ensures { result ≡ spec.use_count line.now }
{
    match line.ext {
        Some(
            TrustLineEntryExtensionV1 {
                liabilities: _,
                ext: Some(second),
            },
        ) => second.liquidity_pool_use_count,
        _ => 0,
    }
}

/// Gives a line another use count.
pub fn set_use_count(line: &mut TrustLineEntry, count: i32)
    ensures { line.new ≡ spec.with_use_count count line.old }
{
    match line.ext {
        None if count == 0 => {}
        None => {
            line.ext = Some(TrustLineEntryExtensionV1 {
                liabilities: NO_LIABILITIES,
                ext: second_with(count),
            });
        }
        Some(
            TrustLineEntryExtensionV1 {
                liabilities: _,
                ext: None,
            },
        ) if count == 0 => {}
        Some(ext) => {
            line.ext = Some(TrustLineEntryExtensionV1 {
                liabilities: ext.liabilities,
                ext: second_with(count),
            });
        }
    }
}

/// The second extension, with a use count.
fn second_with(count: i32) -> Option<TrustLineEntryExtensionV2>
    ensures { result ≡ Some (record { liquidity_pool_use_count = count }) }
{
    Some(TrustLineEntryExtensionV2 {
        liquidity_pool_use_count: count,
    })
}
