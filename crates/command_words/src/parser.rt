//! The commands as `clap` has them. The words that it is given were judged before, so it is given no bounds, and not
//! which options a command needs.

ghost use Rattle.std.specs.Prelude.{◌≡◌, IfOk, false, codes};
ghost use Rattle.clap.specs.Words.{app_of, rule_of, with_subcommand};
ghost use Rattle.clap.specs.declared.builder.Command.TheViews.{out-Command as fields_of};
ghost use Rattle.command_words.specs.Parser.{text_rule, number_rule, any_u32, with_one, sample_app, bare_app};
ghost use Rattle.command_words.specs.Parser.{closing_app, program_app};

use clap::{Arg, Command, value_parser};
use std::alloc::{AllocError, Global};

/// An option whose value is any text.
pub(crate) fn text_option<'a>(alloc: Global, name: &'a str) -> Arg<'a>
    ensures rule { rule_of result ≡ text_rule name.entry.now }
    ensures local { result.global ≡ false }
{
    Arg::new(alloc, name).long(name)
}

/// An option whose value is a number.
pub(crate) fn number_option<'a>(alloc: Global, name: &'a str) -> Arg<'a>
    ensures rule { rule_of result ≡ number_rule any_u32 name.entry.now }
    ensures local { result.global ≡ false }
{
    text_option(alloc, name).value_parser(value_parser!(u32))
}

/// A command with an option of text.
fn text_command<'a>(
    alloc: Global,
    name: &'a str,
    option: &'a str,
) -> Result<Command<'a>, AllocError>
    ensures app { IfOk result (λ command. app_of command ≡ with_one name.entry.now (text_rule option.entry.now)) }
    ensures local { IfOk result (λ command. (fields_of command).has_globals ≡ false) }
{
    Command::new(alloc, name).arg(text_option(alloc, option))
}

/// A command with an option that is a number.
fn number_command<'a>(
    alloc: Global,
    name: &'a str,
    option: &'a str,
) -> Result<Command<'a>, AllocError>
    ensures app { IfOk result (λ command. app_of command
        ≡ with_one name.entry.now (number_rule any_u32 option.entry.now)) }
    ensures local { IfOk result (λ command. (fields_of command).has_globals ≡ false) }
{
    Command::new(alloc, name).arg(number_option(alloc, option))
}

/// The command `sample`.
fn sample_command<'a>(alloc: Global) -> Result<Command<'a>, AllocError>
    ensures app { IfOk result (λ command. app_of command ≡ sample_app any_u32) }
    ensures local { IfOk result (λ command. (fields_of command).has_globals ≡ false) }
{
    number_command(alloc, "sample", "seed")?.arg(number_option(alloc, "ledgers"))
}

/// A program of this name without commands, to which no word asks for help or for a version.
pub(crate) fn bare_program<'a>(alloc: Global, name: &'a str) -> Command<'a>
    ensures app { app_of result ≡ bare_app name.entry.now }
    ensures local { (fields_of result).has_globals ≡ false }
{
    Command::new(alloc, name)
        .no_binary_name(true)
        .disable_help_flag(true)
        .disable_help_subcommand(true)
        .disable_version_flag(true)
}

/// The program with one more command, which has an option of text.
fn with_text_command<'a>(
    alloc: Global,
    program: Command<'a>,
    name: &'a str,
    option: &'a str,
) -> Result<Command<'a>, AllocError>
    ensures { IfOk result (λ more. app_of more
        ≡ with_subcommand (app_of program.entry) (with_one name.entry.now (text_rule option.entry.now)).top) }
{
    program.subcommand(text_command(alloc, name, option)?)
}

/// The program with one more command, which has an option that is a number.
fn with_number_command<'a>(
    alloc: Global,
    program: Command<'a>,
    name: &'a str,
    option: &'a str,
) -> Result<Command<'a>, AllocError>
    ensures { IfOk result (λ more. app_of more
        ≡ with_subcommand (app_of program.entry) (with_one name.entry.now (number_rule any_u32 option.entry.now)).top) }
{
    program.subcommand(number_command(alloc, name, option)?)
}

/// The program with the command `sample`.
fn with_sample<'a>(alloc: Global, program: Command<'a>) -> Result<Command<'a>, AllocError>
    ensures { IfOk result (λ more. app_of more ≡ with_subcommand (app_of program.entry) (sample_app any_u32).top) }
{
    program.subcommand(sample_command(alloc)?)
}

/// The program with the commands that make ledgers, close them and show them.
fn closing_program<'a>(alloc: Global) -> Result<Command<'a>, AllocError>
    ensures { IfOk result (λ program. app_of program ≡ closing_app any_u32) }
{
    let bare = bare_program(alloc, "ledger");
    let with_init = with_text_command(alloc, bare, "init", "network")?;
    let with_run = with_number_command(alloc, with_init, "run", "workers")?;
    let with_catchup = with_text_command(alloc, with_run, "catchup", "network")?;
    let with_show = with_catchup.subcommand(Command::new(alloc, "show"))?;
    with_sample(alloc, with_show)
}

/// The program with all its commands.
pub(crate) fn program<'a>(alloc: Global) -> Result<Command<'a>, AllocError>
    ensures { IfOk result (λ program. app_of program ≡ program_app any_u32) }
{
    let closing = closing_program(alloc)?;
    let with_history = with_text_command(alloc, closing, "history", "network")?;
    let with_changes = with_text_command(alloc, with_history, "changes", "network")?;
    let with_verify = with_changes.subcommand(Command::new(alloc, "verify"))?;
    with_verify.subcommand(Command::new(alloc, "path"))
}
