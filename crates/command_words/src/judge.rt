//! Which words are a command. No memory is taken.

ghost use Rattle.std.specs.Prelude.{◌≡◌, ◌≤◌, ◌⊎◌, ◌++◌, ℕ, IsTrue, ◌↔◌, List, codes, take, drop, length};
ghost use Rattle.command_words.specs.Words.{words_of, Parses, Command as Parsed, name_of, AreOptionsOf};
ghost use Rattle.command_words.specs.Words.{IsOption, AreRunOptions, AreSampleOptions};
ghost use Rattle.command_words.specs.Judging.{AreSeedAndLedgers};

use crate::number::is_number_within;
use crate::option::option_value;

/// Whether the words are the option `--network` alone.
fn is_network(words: &[String]) -> bool
    ensures { IsTrue result ↔ ((passphrase : List ℕ) × IsOption (codes "network") passphrase (words_of words.now)) }
{
    option_value("network", words).is_some()
}

/// Whether the words are options of `run`.
fn are_run_options(words: &[String]) -> bool
    ensures { IsTrue result ↔ ((workers : ℕ) × AreRunOptions workers (words_of words.now)) }
{
    words.is_empty() || is_number_within("workers", words, 0, 8)
}

/// Whether the first words are the seed of `sample`, and the others how many ledgers it closes.
fn are_seed_and_ledgers(seed: &[String], ledgers: &[String]) -> bool
    ensures { IsTrue result ↔ AreSeedAndLedgers (words_of seed.now) (words_of ledgers.now) }
{
    is_number_within("seed", seed, 0, 4_294_967_295)
        && is_number_within("ledgers", ledgers, 1, 20_000)
}

/// Whether the words are the options of `sample`, and this many words its first option.
fn are_sample_options_cut(words: &[String], at: usize) -> bool
    ensures { IsTrue result ↔ ((at ≤ length words.now)
        × (AreSeedAndLedgers (take at (words_of words.now)) (drop at (words_of words.now))
        ⊎ AreSeedAndLedgers (drop at (words_of words.now)) (take at (words_of words.now)))) }
{
    if words.len() < at {
        return false;
    }
    let (one, other) = words.split_at(at);
    are_seed_and_ledgers(one, other) || are_seed_and_ledgers(other, one)
}

/// Whether the words are the options of `sample`.
fn are_sample_options(words: &[String]) -> bool
    ensures { IsTrue result
        ↔ ((seed : ℕ) × (ledgers : ℕ) × AreSampleOptions seed ledgers (words_of words.now)) }
{
    // An option is one word or two.
    are_sample_options_cut(words, 1) || are_sample_options_cut(words, 2)
}

/// Whether the words are options of the command of this name.
fn are_options_of(name: &str, words: &[String]) -> bool
    ensures { IsTrue result ↔ ((command : Parsed) × (name.now ≡ name_of command)
        × AreOptionsOf command (words_of words.now)) }
{
    match name {
        "init" | "catchup" | "history" | "changes" => is_network(words),
        "run" => are_run_options(words),
        "show" | "verify" | "path" => words.is_empty(),
        "sample" => are_sample_options(words),
        _ => false,
    }
}

/// Whether the words are a command.
pub(crate) fn is_command(words: &[String]) -> bool
    ensures { IsTrue result ↔ ((command : Parsed) × Parses (words_of words.now) command) }
{
    match words.split_first() {
        Some((name, options)) => are_options_of(name.as_str(), options),
        None => false,
    }
}
