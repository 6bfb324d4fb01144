//! An option whose value is a number.

ghost use Rattle.std.specs.Prelude.{◌≡◌, ◌≤◌, ℕ, MatchOption, IsTrue, ◌↔◌, length};
ghost use Rattle.std.specs.Str.Parse.{IsNumeral, digits_value};
ghost use Rattle.command_words.specs.Words.{words_of, IsNumberOption};

use crate::option::option_value;

/// How many digits a number may have.
const MOST_DIGITS: usize = 10;

/// The number of a text of one to ten digits.
pub(crate) fn number_of(text: &str) -> Option<u64>
    ensures { MatchOption result (IsNumeral 10 text.now → length text.now ≤ 10 → ⊥)
        (λ number. IsNumeral 10 text.now × (length text.now ≤ 10) × (number ≡ digits_value 10 text.now)) }
{
    // A leading sign is no digit, though `parse` takes one.
    let is_signed = text.starts_with("+");
    if is_signed || text.len() > MOST_DIGITS {
        None
    } else {
        text.parse::<u64>().ok()
    }
}

/// Whether the words are the option of this name alone, with a number in these bounds.
pub(crate) fn is_number_within(name: &str, words: &[String], least: u64, most: u64) -> bool
    ensures { IsTrue result
        ↔ ((number : ℕ) × IsNumberOption name.now number (words_of words.now) × (least ≤ number) × (number ≤ most)) }
{
    let Some(value) = option_value(name, words) else {
        return false;
    };
    match number_of(value) {
        Some(number) => least <= number && number <= most,
        None => false,
    }
}
