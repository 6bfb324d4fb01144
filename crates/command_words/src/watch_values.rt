//! The values that `clap` finds in words that ask something of `watch`.

ghost use Rattle.std.specs.Prelude.{◌≡◌, IfErr, IfOk, IsSomeAnd};
ghost use Rattle.clap.specs.Words.{kind_of, found_of, rows_of};
ghost use Rattle.clap.specs.declared.error.ErrorKind.TheVariants.{OutOfMemory};
ghost use Rattle.command_words.specs.Words.{words_of};
ghost use Rattle.command_words.specs.WatchWords.{Watch, ParsesWatch};
ghost use Rattle.command_words.specs.WatchFound.{FindsWatch, watch_at};

use crate::values::{number_in, text_in};
use crate::watch_parser::watch_program;
use crate::watch_words::WatchWords;
use clap::{ArgMatches, Error};
use hex::FromHex;
use std::alloc::Global;

/// What `clap` finds in words that ask something. On these only an allocation failure is an error.
pub(crate) fn watch_matches<'a>(alloc: Global, words: &'a [String]) -> Result<ArgMatches<'a>, Error>
    requires { (asked : Watch) × ParsesWatch (words_of words.now) asked }
    ensures finds { IfOk result (λ matches. (asked : Watch) × ParsesWatch (words_of words.entry.now) asked
        × FindsWatch asked (rows_of (found_of matches))) }
    ensures memory { IfErr result (λ e. kind_of e ≡ OutOfMemory) }
{
    watch_program(alloc)?.try_get_matches_from(words)
}

/// What is asked, by the values that were found.
pub(crate) fn found_watch<'a>(values: &ArgMatches<'a>) -> Option<WatchWords<'a>>
    ensures { (asked : Watch) → FindsWatch asked (rows_of (found_of values.now))
        → IsSomeAnd result (λ read. watch_at read ≡ asked) }
{
    let account = <[u8; 32] as FromHex>::from_hex(text_in(values, "account")).ok()?;
    Some(WatchWords {
        passphrase: text_in(values, "network"),
        account,
        readers: number_in(values, "readers"),
    })
}
