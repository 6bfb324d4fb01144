//! Texts.

ghost use Rattle.std.specs.Prelude.{◌≡◌};
ghost use Rattle.valid_values.specs.Texts as spec;

/// Whether a byte is 0x20 to 0x7E of ASCII.
fn is_printable(byte: u8) -> bool
    ensures { result ≡ spec.is_printable byte }
{
    0x20 <= byte && byte <= 0x7E
}

/// Whether each byte of a text is 0x20 to 0x7E (isStringValid in stellar-core). The empty text is valid.
#[tactic(auto, unfolding(crate::specs::Texts::is_valid_text))]
pub fn is_valid_text(text: &[u8]) -> bool
    ensures { result ≡ spec.is_valid_text text.now }
{
    text.iter().all(|byte| is_printable(*byte))
}
