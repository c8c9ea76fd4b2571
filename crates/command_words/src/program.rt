//! The program's words, as `clap` is told of them.
ghost use Rattle.std.specs.Prelude.{◌≡◌, IfOk, false};
ghost use Rattle.clap.specs.Words.{app_of};
ghost use Rattle.clap.specs.declared.builder.command.Command.TheViews.{out-Command};
ghost use Rattle.command_words.specs.Program.{plain_app, gen_app, bare_program, program};

use base_ids::NoMemory;
use clap::{Arg, Command};
use std::alloc::Global;

/// A command of this name, with no words of its own.
fn plain_command<'a>(alloc: Global, name: &'static str) -> Command<'a>
    ensures app { app_of result ≡ plain_app name.now }
    ensures local { (out-Command result).has_globals ≡ false }
{
    Command::new(alloc, name)
}

/// `gen N`. The word is taken as text.
fn gen_command<'a>(alloc: Global) -> Result<Command<'a>, NoMemory>
    ensures app { IfOk result (λ command. app_of command ≡ gen_app) }
    ensures local { IfOk result (λ command. (out-Command command).has_globals ≡ false) }
{
    let number = Arg::new(alloc, "number").required(true);
    let command = Command::new(alloc, "gen").arg(number)?;
    Ok(command)
}

/// The program with no command: no name stands before its words, and there is no help.
fn bare_program<'a>(alloc: Global) -> Command<'a>
    ensures { app_of result ≡ bare_program }
{
    Command::new(alloc, "cluster_cli")
        .no_binary_name(true)
        .disable_help_flag(true)
        .disable_help_subcommand(true)
        .subcommand_required(true)
}

/// The program with its commands.
pub(crate) fn program<'a>(alloc: Global) -> Result<Command<'a>, NoMemory>
    ensures { IfOk result (λ command. app_of command ≡ program) }
{
    let generator = gen_command(alloc)?;
    let with_play = bare_program(alloc).subcommand(plain_command(alloc, "play"))?;
    let with_gen = with_play.subcommand(generator)?;
    let with_reads = with_gen.subcommand(plain_command(alloc, "reads"))?;
    let whole = with_reads.subcommand(plain_command(alloc, "balance"))?;
    Ok(whole)
}
