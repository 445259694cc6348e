//! The commands and their options.

ghost use Rattle.std.specs.Prelude.{◌≡◌, IfOk};
ghost use Rattle.clap.specs.Words.{app_of, with_rule, with_subcommand};
ghost use Rattle.cli_words.specs.Rows.{row_rule, with_rows, command_app, with_commands};
ghost use Rattle.cli_words.specs.Words.{svamon_app};

use crate::option::option_of;
use crate::release::VERSION;
use crate::row::{CommandRow, OptionRow};
use crate::rows::COMMANDS;
use clap::Command;
use std::alloc::{AllocError, Global};

/// The command with one more option.
fn with_option<'a>(
    alloc: Global,
    command: Command<'a>,
    row: &OptionRow,
) -> Result<Command<'a>, AllocError>
    ensures { IfOk result (λ c. app_of c ≡ with_rule (app_of command.entry) (row_rule row.now)) }
{
    command.arg(option_of(alloc, row)?)
}

/// The command with more options.
fn with_options<'a>(
    alloc: Global,
    command: Command<'a>,
    rows: &[OptionRow],
) -> Result<Command<'a>, AllocError>
    ensures { IfOk result (λ c. app_of c ≡ with_rows (app_of command.entry) rows.now) }
{
    let mut whole = command;
    for row in rows {
        whole = with_option(alloc, whole, row)?;
    }
    Ok(whole)
}

/// The command of a row.
fn command_of<'a>(alloc: Global, row: &CommandRow) -> Result<Command<'a>, AllocError>
    ensures { IfOk result (λ c. app_of c ≡ command_app row.now) }
{
    with_options(
        alloc,
        Command::new(alloc, row.name).about(row.about),
        row.options,
    )
}

/// The command with one more subcommand.
fn with_subcommand<'a>(
    alloc: Global,
    command: Command<'a>,
    row: &CommandRow,
) -> Result<Command<'a>, AllocError>
    ensures { IfOk result (λ c. app_of c
        ≡ with_subcommand (app_of command.entry) (command_app row.now).top) }
{
    command.subcommand(command_of(alloc, row)?)
}

/// The command with more subcommands.
fn with_subcommands<'a>(
    alloc: Global,
    command: Command<'a>,
    rows: &[CommandRow],
) -> Result<Command<'a>, AllocError>
    ensures { IfOk result (λ c. app_of c ≡ with_commands (app_of command.entry) rows.now) }
{
    let mut whole = command;
    for row in rows {
        whole = with_subcommand(alloc, whole, row)?;
    }
    Ok(whole)
}

/// svamon's commands.
pub(crate) fn svamon_command<'a>(alloc: Global) -> Result<Command<'a>, AllocError>
    ensures { IfOk result (λ c. app_of c ≡ svamon_app) }
{
    let svamon = Command::new(alloc, "svamon")
        .about("Checks SystemVerilog assertions over recorded waveforms")
        .version(VERSION)
        .subcommand_required(true);
    with_subcommands(alloc, svamon, &COMMANDS)
}
