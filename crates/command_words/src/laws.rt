//! Laws of the words of the command line, as contracts.

ghost use Rattle.command_words.specs.Words.{CommandsAreOne};
ghost use Rattle.command_words.specs.WatchWords.{WatchesAreOne};

/// Words are at most one command.
pub fn commands_are_one()
    ensures { CommandsAreOne }
{}

/// Words ask at most one thing of `watch`.
pub fn watches_are_one()
    ensures { WatchesAreOne }
{}
