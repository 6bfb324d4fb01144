//! Which words ask something of `watch`. No memory is taken.

ghost use Rattle.std.specs.Prelude.{◌≡◌, ◌≤◌, ℕ, List, MatchOption, IsTrue, ◌↔◌};
ghost use Rattle.std.specs.Prelude.{take, drop, length};
ghost use Rattle.command_words.specs.Words.{words_of, IsOption};
ghost use Rattle.command_words.specs.WatchWords.{Watch, ParsesWatch};
ghost use Rattle.command_words.specs.WatchOptions.{BeginsWith, Differ, AreTwo, AreWatchTexts, IsKeyText, IsCountText};

use crate::number::number_of;
use crate::option::option_value;
use hex::FromHex;

/// The most readers beside a ledger.
const MOST_READERS: u64 = 4;

/// The values of the options of `watch`, as texts.
#[derive(Clone, Copy)]
struct WatchTexts<'a> {
    network: &'a str,
    account: &'a str,
    readers: &'a str,
}

/// The value of the option of this name and the words after it, where the option is this many words at the beginning.
fn option_of_len<'a>(name: &str, words: &'a [String], len: usize) -> Option<(&'a str, &'a [String])>
    ensures { MatchOption result ((value : List ℕ) → len ≤ length words.entry.now
        → IsOption name.now value (take len (words_of words.entry.now)) → ⊥)
        (λ found. IsOption name.now found.0.now (take len (words_of words.entry.now))
        × (words_of found.1.now ≡ drop len (words_of words.entry.now))) }
{
    if words.len() < len {
        return None;
    }
    let (option, rest) = words.split_at(len);
    let value = option_value(name, option)?;
    Some((value, rest))
}

/// The value of the option of this name and the words after it, where the words begin with the option.
fn first_option<'a>(name: &str, words: &'a [String]) -> Option<(&'a str, &'a [String])>
    ensures { MatchOption result ((value : List ℕ) (rest : List (List ℕ))
        → BeginsWith name.now value rest (words_of words.entry.now) → ⊥)
        (λ found. BeginsWith name.now found.0.now (words_of found.1.now) (words_of words.entry.now)) }
{
    // An option is one word or two.
    match option_of_len(name, words, 1) {
        Some(found) => Some(found),
        None => option_of_len(name, words, 2),
    }
}

/// The values of two options, where the words are these in either order.
fn two_options<'a>(one: &str, other: &str, words: &'a [String]) -> Option<(&'a str, &'a str)>
    requires { Differ one.now other.now }
    ensures { MatchOption result ((value second : List ℕ)
        → AreTwo one.now value other.now second (words_of words.entry.now) → ⊥)
        (λ found. AreTwo one.now found.0.now other.now found.1.now (words_of words.entry.now)) }
{
    if let Some((value, rest)) = first_option(one, words) {
        let second = option_value(other, rest)?;
        return Some((value, second));
    }
    let (second, rest) = first_option(other, words)?;
    let value = option_value(one, rest)?;
    Some((value, second))
}

/// The values of the three options, where the words are these in any order.
fn watch_texts<'a>(words: &'a [String]) -> Option<WatchTexts<'a>>
    ensures { MatchOption result ((network account readers : List ℕ)
        → AreWatchTexts network account readers (words_of words.entry.now) → ⊥)
        (λ texts. AreWatchTexts texts.network.now texts.account.now texts.readers.now (words_of words.entry.now)) }
{
    if let Some((network, rest)) = first_option("network", words) {
        let (account, readers) = two_options("account", "readers", rest)?;
        return Some(WatchTexts {
            network,
            account,
            readers,
        });
    }
    if let Some((account, rest)) = first_option("account", words) {
        let (network, readers) = two_options("network", "readers", rest)?;
        return Some(WatchTexts {
            network,
            account,
            readers,
        });
    }
    let (readers, rest) = first_option("readers", words)?;
    let (network, account) = two_options("network", "account", rest)?;
    Some(WatchTexts {
        network,
        account,
        readers,
    })
}

/// Whether the text is 64 hexadecimal digits.
fn is_key_text(text: &str) -> bool
    ensures { IsTrue result ↔ ((key : List ℕ) × IsKeyText key text.now) }
{
    <[u8; 32] as FromHex>::from_hex(text).is_ok()
}

/// Whether the text is a number of readers.
fn is_count_text(text: &str) -> bool
    ensures { IsTrue result ↔ ((number : ℕ) × IsCountText number text.now) }
{
    match number_of(text) {
        Some(number) => 1 <= number && number <= MOST_READERS,
        None => false,
    }
}

/// Whether the words ask something of `watch`.
pub(crate) fn is_watch(words: &[String]) -> bool
    ensures { IsTrue result ↔ ((asked : Watch) × ParsesWatch (words_of words.now) asked) }
{
    match watch_texts(words) {
        Some(texts) => is_key_text(texts.account) && is_count_text(texts.readers),
        None => false,
    }
}
