//! An option in words, with its value.

ghost use Rattle.std.specs.Prelude.{◌≡◌, ◌≢◌, ◌++◌, ℕ, List, [], MatchOption, IsTrue, ◌↔◌, codes};
ghost use Rattle.command_words.specs.Words.{words_of, option_word, IsOption, IsUnhyphened};

/// Whether the word is the option of this name, with its value in the next word.
fn is_option_word(name: &str, word: &str) -> bool
    ensures { IsTrue result ↔ (word.now ≡ option_word name.now) }
{
    match word.strip_prefix("--") {
        Some(rest) => rest == name,
        None => false,
    }
}

/// Whether the word is a value of its own.
fn is_own_value(word: &str) -> bool
    ensures { IsTrue result ↔ ((word.now ≢ []) × IsUnhyphened word.now) }
{
    !word.is_empty() && !word.starts_with("-")
}

/// The value after the equals sign, where the word is the option of this name with it.
fn joined_value<'a>(name: &str, word: &'a str) -> Option<&'a str>
    ensures { MatchOption result ((value : List ℕ) → value ≢ []
        → word.entry.now ≢ option_word name.now ++ codes "=" ++ value)
        (λ value. (value.now ≢ []) × (word.entry.now ≡ option_word name.now ++ codes "=" ++ value.now)) }
{
    let named = word.strip_prefix("--")?;
    let after = named.strip_prefix(name)?;
    let value = after.strip_prefix("=")?;
    if value.is_empty() { None } else { Some(value) }
}

/// The value of the option of this name, where the words are that option alone.
pub(crate) fn option_value<'a>(name: &str, words: &'a [String]) -> Option<&'a str>
    ensures { MatchOption result ((value : List ℕ) → IsOption name.now value (words_of words.entry.now) → ⊥)
        (λ value. IsOption name.now value.now (words_of words.entry.now)) }
{
    match words {
        [word] => joined_value(name, word.as_str()),
        [option, value] => {
            if is_option_word(name, option.as_str()) && is_own_value(value.as_str()) {
                Some(value.as_str())
            } else {
                None
            }
        }
        _ => None,
    }
}
