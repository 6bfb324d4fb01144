//! How words are read as what `watch` is asked.

ghost use Rattle.std.specs.Prelude.{IfErr, IfOk, MatchOption};
ghost use Rattle.command_words.specs.Words.{words_of};
ghost use Rattle.command_words.specs.WatchWords.{Watch, ParsesWatch, ParsesNoWatch};
ghost use Rattle.command_words.specs.WatchFound.{watch_at};

use crate::watch_judge::is_watch;
use crate::watch_values::{found_watch, watch_matches};
use crate::watch_words::WatchWords;
use std::alloc::{AllocError, Global};

/// What the words after the name of the program `watch` ask for, or nothing. Memory is taken, and may be refused, for
/// words that ask something alone.
pub fn read_watch<'a>(
    alloc: Global,
    words: &'a [String],
) -> Result<Option<WatchWords<'a>>, AllocError>
    ensures asked { IfOk result (λ read. MatchOption read (ParsesNoWatch (words_of words.now))
        (λ asked. ParsesWatch (words_of words.now) (watch_at asked))) }
    ensures no_memory { IfErr result (λ _. (asked : Watch) × ParsesWatch (words_of words.now) asked) }
{
    if !is_watch(words) {
        return Ok(None);
    }
    match watch_matches(alloc, words) {
        Ok(matches) => Ok(found_watch(&matches)),
        Err(_) => Err(AllocError),
    }
}
