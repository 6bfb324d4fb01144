//! The program `watch` as `clap` has it. The words that it is given were judged before.

ghost use Rattle.std.specs.Prelude.{◌≡◌, IfOk};
ghost use Rattle.clap.specs.Words.{app_of};
ghost use Rattle.command_words.specs.Parser.{any_u32, watch_app};

use crate::parser::{bare_program, number_option, text_option};
use clap::Command;
use std::alloc::{AllocError, Global};

/// The program with its three options.
pub(crate) fn watch_program<'a>(alloc: Global) -> Result<Command<'a>, AllocError>
    ensures { IfOk result (λ program. app_of program ≡ watch_app any_u32) }
{
    let with_network = bare_program(alloc, "watch").arg(text_option(alloc, "network"))?;
    let with_account = with_network.arg(text_option(alloc, "account"))?;
    with_account.arg(number_option(alloc, "readers"))
}
