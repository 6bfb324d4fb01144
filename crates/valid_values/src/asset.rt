//! Assets.

ghost use Rattle.std.specs.Prelude.{◌≡◌, ◌≤◌, nat_eq, length};
ghost use Rattle.std.specs.List.{list_all};
ghost use Rattle.valid_values.specs.Assets as spec;

use ledger_types::Asset;

/// The fewest letters and digits of a code of ASSET_TYPE_CREDIT_ALPHANUM4.
const FEWEST_OF_ALPHANUM4: usize = 1;

/// The fewest letters and digits of a code of ASSET_TYPE_CREDIT_ALPHANUM12.
const FEWEST_OF_ALPHANUM12: usize = 5;

/// Whether a byte is 0 to 9, A to Z or a to z of ASCII.
fn is_letter_or_digit(byte: u8) -> bool
    ensures { result ≡ spec.is_letter_or_digit byte }
{
    0x30 <= byte && byte <= 0x39 || 0x41 <= byte && byte <= 0x5A || 0x61 <= byte && byte <= 0x7A
}

/// How many letters and digits a code begins with.
fn code_len(code: &[u8]) -> usize
    ensures len { result ≡ spec.code_len code.now }
    ensures within { result ≤ length code.now }
{
    match code {
        [first, others @ ..] if is_letter_or_digit(*first) => 1 + code_len(others),
        _ => 0,
    }
}

/// Whether all bytes are zero.
fn are_zero(bytes: &[u8]) -> bool
    ensures { result ≡ list_all (λ byte. nat_eq byte 0) bytes.now }
{
    bytes.iter().all(|byte| *byte == 0)
}

/// Whether a code has at least so many letters and digits, and zero bytes after them.
#[tactic(auto, unfolding(crate::specs::Assets::is_valid_code))]
fn is_valid_code(fewest: usize, code: &[u8]) -> bool
    ensures { result ≡ spec.is_valid_code fewest code.now }
{
    let len = code_len(code);
    fewest <= len && are_zero(&code[len..])
}

/// Whether an asset is native, or has a code of 1 to 4 letters and digits of ASCII (arm 1) or 5 to 12 (arm 2), followed
/// by zero bytes (isAssetValid in stellar-core). Whether its issuer has an account isn't asked.
#[tactic(auto, unfolding(crate::specs::Assets::is_valid_asset))]
pub fn is_valid_asset(asset: &Asset) -> bool
    ensures { result ≡ spec.is_valid_asset asset.now }
{
    match asset {
        Asset::Native => true,
        Asset::Alphanum4 { code, issuer: _ } => is_valid_code(FEWEST_OF_ALPHANUM4, code),
        Asset::Alphanum12 { code, issuer: _ } => is_valid_code(FEWEST_OF_ALPHANUM12, code),
    }
}
