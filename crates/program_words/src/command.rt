//! The program as a command with three subcommands.

ghost use Rattle.std.specs.Prelude.{◌≡◌, IfOk, false};
ghost use Rattle.clap.specs.Words.{Shape, app_of, rule_of, with_subcommand};
ghost use Rattle.program_words.specs.Command as commands;
ghost use Rattle.program_words.specs.Command.{Stands};

use clap::{Arg, ArgAction, Command};
use std::alloc::{AllocError, Global};

/// The program as a command with three subcommands, one for each form.
pub fn program<'a>(alloc: Global) -> Result<Command<'a>, AllocError>
    ensures { IfOk result (λ command. app_of command ≡ commands.program) }
{
    let command = adding(Command::new(alloc, "tas"), run_command(alloc))?;
    let command = adding(command, bulk_command(alloc))?;
    adding(command, replay_command(alloc))
}

/// The command with a subcommand more, where there was memory for it.
fn adding<'a>(
    command: Command<'a>,
    subcommand: Result<Command<'a>, AllocError>,
) -> Result<Command<'a>, AllocError>
    ensures { (shape : Shape) → IfOk subcommand.entry (Stands shape)
        → IfOk result (λ more. app_of more ≡ with_subcommand (app_of command.entry) shape) }
{
    command.subcommand(subcommand?)
}

/// `run`, with `--cores` and `--pcap`.
fn run_command<'a>(alloc: Global) -> Result<Command<'a>, AllocError>
    ensures { IfOk result (Stands commands.run) }
{
    Command::new(alloc, "run")
        .arg(valued(alloc, "cores"))?
        .arg(switch(alloc, "pcap"))
}

/// `bulk`, with `--cores` and its number.
fn bulk_command<'a>(alloc: Global) -> Result<Command<'a>, AllocError>
    ensures { IfOk result (Stands commands.bulk) }
{
    Command::new(alloc, "bulk")
        .arg(valued(alloc, "cores"))?
        .arg(Arg::new(alloc, "clients"))
}

/// `replay`, with `--local`, `--cores`, `--pcap` and `--loose-sums`.
fn replay_command<'a>(alloc: Global) -> Result<Command<'a>, AllocError>
    ensures { IfOk result (Stands commands.replay) }
{
    valued_replay_command(alloc)?
        .arg(switch(alloc, "pcap"))?
        .arg(switch(alloc, "loose-sums"))
}

/// `replay`, with `--local` and `--cores` alone.
fn valued_replay_command<'a>(alloc: Global) -> Result<Command<'a>, AllocError>
    ensures { IfOk result (Stands commands.replay_valued) }
{
    Command::new(alloc, "replay")
        .arg(valued(alloc, "local"))?
        .arg(valued(alloc, "cores"))
}

/// The option `--NAME`, which has no value.
fn switch<'a>(alloc: Global, name: &'a str) -> Arg<'a>
    ensures rule { rule_of result ≡ commands.switch name.entry.now }
    ensures own { result.global ≡ false }
{
    Arg::new(alloc, name).long(name).action(ArgAction::SetTrue)
}

/// The option `--NAME=VALUE`.
fn valued<'a>(alloc: Global, name: &'a str) -> Arg<'a>
    ensures rule { rule_of result ≡ commands.valued name.entry.now }
    ensures own { result.global ≡ false }
{
    Arg::new(alloc, name).long(name)
}
