//! The words of the command line: which of them are a command, and which command; and what those of `watch` ask.
#![tactic(auto)]

mod command;
mod judge;
mod laws;
mod number;
mod option;
mod parser;
mod read;
mod values;
mod watch_judge;
mod watch_parser;
mod watch_read;
mod watch_values;
mod watch_words;

pub use command::Command;
pub use laws::{commands_are_one, watches_are_one};
pub use read::read_command;
pub use watch_read::read_watch;
pub use watch_words::WatchWords;
