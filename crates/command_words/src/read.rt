//! How words are read as a command.

ghost use Rattle.std.specs.Prelude.{IfErr, IfOk, MatchOption};
ghost use Rattle.command_words.specs.Words.{words_of, Parses, ParsesNone, Command as Parsed};
ghost use Rattle.command_words.specs.Commands.{command_at};

use crate::command::Command;
use crate::judge::is_command;
use crate::values::{found_command, matches_of};
use std::alloc::{AllocError, Global};

/// The command that the words after the program's name give, or none. Memory is taken, and may be refused, for words
/// that are a command alone.
pub fn read_command<'a>(
    alloc: Global,
    words: &'a [String],
) -> Result<Option<Command<'a>>, AllocError>
    ensures command { IfOk result (λ read. MatchOption read (ParsesNone (words_of words.now))
        (λ command. Parses (words_of words.now) (command_at command))) }
    ensures no_memory { IfErr result (λ _. (command : Parsed) × Parses (words_of words.now) command) }
{
    if !is_command(words) {
        return Ok(None);
    }
    match matches_of(alloc, words) {
        Ok(matches) => Ok(found_command(&matches)),
        Err(_) => Err(AllocError),
    }
}
