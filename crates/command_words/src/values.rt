//! The values that `clap` finds in words that are a command.

ghost use Rattle.std.specs.Prelude.{◌≡◌, IfErr, IfOk, IsSomeAnd, ℕ, List};
ghost use Rattle.clap.specs.Words.{Text, kind_of, found_of, rows_of};
ghost use Rattle.clap.specs.declared.error.ErrorKind.TheVariants.{OutOfMemory};
ghost use Rattle.command_words.specs.Words.{words_of, Parses, Command as Parsed, name_of};
ghost use Rattle.command_words.specs.Commands.{command_at};
ghost use Rattle.command_words.specs.Found.{Finds, FindsOptions, FindsText, FindsNumberOrNone};

use crate::command::Command;
use crate::parser::program;
use clap::{ArgMatches, Error};
use std::alloc::Global;

/// What `clap` finds in words that are a command. On these only an allocation failure is an error.
pub(crate) fn matches_of<'a>(alloc: Global, words: &'a [String]) -> Result<ArgMatches<'a>, Error>
    requires { (command : Parsed) × Parses (words_of words.now) command }
    ensures finds { IfOk result (λ matches. (command : Parsed) × Parses (words_of words.entry.now) command
        × Finds matches command) }
    ensures memory { IfErr result (λ e. kind_of e ≡ OutOfMemory) }
{
    program(alloc)?.try_get_matches_from(words)
}

/// The text of an option. Words that are a command have it where it is asked for.
pub(crate) fn text_in<'a>(values: &ArgMatches<'a>, name: &str) -> &'a str
    ensures { (value : Text) → FindsText name.now value (rows_of (found_of values.now)) → result.now ≡ value }
{
    values.get_str(name).unwrap_or("")
}

/// The number of an option, or 0 where there is none.
pub(crate) fn number_in(values: &ArgMatches<'_>, name: &str) -> u32
    ensures { (number : ℕ) → FindsNumberOrNone name.now number (rows_of (found_of values.now)) → result ≡ number }
{
    values.get_one::<u32>(name).unwrap_or(0)
}

/// The command of this name, with the values that were found.
fn command_of<'a>(name: &str, values: &ArgMatches<'a>) -> Option<Command<'a>>
    ensures { (command : Parsed) → name.now ≡ name_of command
        → FindsOptions command (rows_of (found_of values.now)) → IsSomeAnd result (λ read. command_at read ≡ command) }
{
    match name {
        "init" => Some(Command::Init {
            passphrase: text_in(values, "network"),
        }),
        "run" => Some(Command::Run {
            workers: number_in(values, "workers"),
        }),
        "catchup" => Some(Command::CatchUp {
            passphrase: text_in(values, "network"),
        }),
        "show" => Some(Command::Show),
        "sample" => Some(Command::Sample {
            seed: number_in(values, "seed"),
            ledgers: number_in(values, "ledgers"),
        }),
        "history" => Some(Command::History {
            passphrase: text_in(values, "network"),
        }),
        "changes" => Some(Command::Changes {
            passphrase: text_in(values, "network"),
        }),
        "verify" => Some(Command::Verify),
        "path" => Some(Command::Path),
        _ => None,
    }
}

/// The command that was found.
pub(crate) fn found_command<'a>(matches: &ArgMatches<'a>) -> Option<Command<'a>>
    ensures { (command : Parsed) → Finds matches.now command → IsSomeAnd result (λ read. command_at read ≡ command) }
{
    match matches.subcommand() {
        Some((name, values)) => command_of(name, values),
        None => None,
    }
}
