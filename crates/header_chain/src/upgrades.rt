//! Upgrades.

ghost use Rattle.std.specs.Prelude.{◌≡◌, ◌<◌, ◌^◌, map, length, slice_get, Some, None};
ghost use Rattle.header_chain.specs.Upgrades as spec;

use item_list::ItemList;
use ledger_types::{LedgerHeader, LedgerHeaderExtensionV1, LedgerUpgrade};
use thiserror::Error;
use xdr_core::Cursor;
use xdr_header::read_ledger_upgrade;

/// Why a header isn't upgraded. The index is that of the first such upgrade in the list.
#[derive(Clone, Copy, PartialEq, Eq, Debug, Error)]
pub enum UpgradeFault {
    /// The bytes encode no upgrade, its type isn't above the one before, or its value is one that nothing may have.
    #[error("bad upgrade {index}")]
    Bad { index: u32 },
    /// The upgrade is of the version, or of a reserve above the present one.
    #[error("upgrade {index} is out of the profile")]
    OutOfProfile { index: u32 },
}

/// The upgrade that bytes encode, if they encode one and no more.
fn upgrade_in(bytes: &[u8]) -> Option<LedgerUpgrade>
    ensures { result ≡ spec.upgrade_in bytes.now }
{
    let mut ahead = Cursor::new(bytes);
    match read_ledger_upgrade(&mut ahead) {
        Ok(upgrade) if ahead.end().is_ok() => Some(upgrade),
        _ => None,
    }
}

// ---- bad upgrades

fn type_of(upgrade: &LedgerUpgrade) -> u32
    ensures { result ≡ spec.type_of upgrade.now }
{
    match upgrade {
        LedgerUpgrade::Version(_) => 1,
        LedgerUpgrade::BaseFee(_) => 2,
        LedgerUpgrade::MaxTxSetSize(_) => 3,
        LedgerUpgrade::BaseReserve(_) => 4,
        LedgerUpgrade::Flags(_) => 5,
    }
}

/// Whether a value is one that nothing may have.
fn is_bad_value(upgrade: &LedgerUpgrade) -> bool
    ensures { result ≡ spec.is_bad_value upgrade.now }
{
    match upgrade {
        LedgerUpgrade::BaseFee(fee) => *fee == 0,
        LedgerUpgrade::BaseReserve(reserve) => *reserve == 0,
        LedgerUpgrade::Flags(flags) => *flags > 7,
        _ => false,
    }
}

/// Whether what was asked for is bad after an upgrade of a type.
fn is_bad_after(before: u32, asked: &Option<LedgerUpgrade>) -> bool
    ensures { result ≡ spec.is_bad_after before (Some asked.now) }
{
    match asked {
        None => true,
        Some(upgrade) => type_of(upgrade) <= before || is_bad_value(upgrade),
    }
}

fn type_at(asked: &Option<LedgerUpgrade>) -> u32
    ensures { result ≡ spec.type_at (Some asked.now) }
{
    match asked {
        None => 0,
        Some(upgrade) => type_of(upgrade),
    }
}

/// The index of the first bad upgrade.
fn first_bad(upgrades: &[ItemList<u8>]) -> Option<u32>
    requires { length upgrades.now < 2 ^ 32 }
    ensures { result ≡
        spec.first_index (spec.is_bad_at (map spec.upgrade_in upgrades.now)) (map spec.upgrade_in upgrades.now) }
{
    let mut before = 0;
    let mut i = 0;
    while i < upgrades.len() {
        let asked = upgrade_in(upgrades[i].as_slice());
        if is_bad_after(before, &asked) {
            return Some(i as u32);
        }
        before = type_at(&asked);
        i += 1;
    }
    None
}

// ---- upgrades that aren't made here

/// The protocol that a ledger may be upgraded from.
const OLDER_VERSION: u32 = 18;

/// The protocol that it may be upgraded to.
const NEWER_VERSION: u32 = 19;

fn is_out_of_profile(header: &LedgerHeader, asked: &Option<LedgerUpgrade>) -> bool
    ensures { result ≡ spec.is_out_of_profile header.now (Some asked.now) }
{
    match asked {
        Some(LedgerUpgrade::Version(version)) => {
            header.ledger_version != OLDER_VERSION || *version != NEWER_VERSION
        }
        Some(LedgerUpgrade::BaseReserve(reserve)) => header.base_reserve < *reserve,
        _ => false,
    }
}

/// The index of the first upgrade that isn't made here.
fn first_out_of_profile(header: &LedgerHeader, upgrades: &[ItemList<u8>]) -> Option<u32>
    requires { length upgrades.now < 2 ^ 32 }
    ensures { result ≡ spec.first_index
        (λ i. spec.is_out_of_profile header.now (slice_get (map spec.upgrade_in upgrades.now) i))
        (map spec.upgrade_in upgrades.now) }
{
    let mut i = 0;
    while i < upgrades.len() {
        if is_out_of_profile(header, &upgrade_in(upgrades[i].as_slice())) {
            return Some(i as u32);
        }
        i += 1;
    }
    None
}

// ---- the upgraded header

fn upgrade(header: &mut LedgerHeader, asked: Option<LedgerUpgrade>)
    ensures { header.new ≡ spec.upgraded_if header.old asked }
{
    match asked {
        None => {}
        Some(LedgerUpgrade::Version(version)) => header.ledger_version = version,
        Some(LedgerUpgrade::BaseFee(fee)) => header.base_fee = fee,
        Some(LedgerUpgrade::MaxTxSetSize(size)) => header.max_tx_set_size = size,
        Some(LedgerUpgrade::BaseReserve(reserve)) => header.base_reserve = reserve,
        Some(LedgerUpgrade::Flags(flags)) => {
            header.ext = Some(LedgerHeaderExtensionV1 { flags });
        }
    }
}

/// Upgrades a header by all that a list asks for.
fn upgrade_all(header: &mut LedgerHeader, upgrades: &[ItemList<u8>])
    ensures { header.new ≡ spec.all_upgraded header.old (map spec.upgrade_in upgrades.now) }
{
    let mut i = 0;
    while i < upgrades.len() {
        upgrade(header, upgrade_in(upgrades[i].as_slice()));
        i += 1;
    }
}

/// Upgrades a header by the encodings of upgrades, in their order, or answers the first one that is bad, or else the
/// first one that isn't made here; the header stays then.
pub fn apply_upgrades(
    header: &mut LedgerHeader,
    upgrades: &[ItemList<u8>],
) -> Result<(), UpgradeFault>
    requires { length upgrades.now < 2 ^ 32 }
    ensures { spec.IsUpgraded (map spec.upgrade_in upgrades.now) header.old header.new result }
{
    if let Some(index) = first_bad(upgrades) {
        return Err(UpgradeFault::Bad { index });
    }
    if let Some(index) = first_out_of_profile(header, upgrades) {
        return Err(UpgradeFault::OutOfProfile { index });
    }
    upgrade_all(header, upgrades);
    Ok(())
}
