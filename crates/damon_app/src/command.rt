ghost use Rattle.std.specs.Prelude.{◌≡◌, false, IfOk};
ghost use Rattle.clap.specs.Words.{app_of, new_app, rule_of, with_rule, with_subcommand};
ghost use Rattle.damon_app.specs.Parser.{damon_app, goals_rule, number_rule, top_app};

use clap::{Arg, ArgAction, Command};
use quota_goal::MAX_GOALS;
use std::alloc::{AllocError, Global};

// The command that the words are parsed by: a subcommand for each of the program's commands, and no help.
pub(crate) fn make_command<'a>(alloc: Global) -> Result<Command<'a>, AllocError>
    ensures { IfOk result (λ command. app_of command ≡ damon_app) }
{
    let command = add_alone(alloc, top_command(alloc), "replay")?;
    let command = add_alone(alloc, command, "json")?;
    let command = add_alone(alloc, command, "verify")?;
    let command = add_with(alloc, command, "gen", number_argument(alloc))?;
    let command = add_with(alloc, command, "heat", number_argument(alloc))?;
    let command = add_with(alloc, command, "tune", goals_argument(alloc))?;
    let command = add_alone(alloc, command, "admin")?;
    add_alone(alloc, command, "reclaim")
}

// The command without its subcommands.
fn top_command<'a>(alloc: Global) -> Command<'a>
    ensures { app_of result ≡ top_app }
{
    Command::new(alloc, "damon")
        .no_binary_name(true)
        .disable_help_flag(true)
        .disable_help_subcommand(true)
        .subcommand_required(true)
}

// Adds a subcommand without an argument.
fn add_alone<'a>(
    alloc: Global,
    command: Command<'a>,
    name: &'a str,
) -> Result<Command<'a>, AllocError>
    ensures { IfOk result (λ r. app_of r
        ≡ with_subcommand (app_of command.entry) (new_app name.now).top) }
{
    let subcommand = Command::new(alloc, name);
    command.subcommand(subcommand)
}

// Adds a subcommand with one argument.
fn add_with<'a>(
    alloc: Global,
    command: Command<'a>,
    name: &'a str,
    argument: Arg<'a>,
) -> Result<Command<'a>, AllocError>
    requires { argument.global ≡ false }
    ensures { IfOk result (λ r. app_of r ≡ with_subcommand (app_of command.entry)
        (with_rule (new_app name.now) (rule_of argument.entry)).top) }
{
    let subcommand = Command::new(alloc, name).arg(argument)?;
    command.subcommand(subcommand)
}

// The argument of a subcommand that takes a number.
fn number_argument<'a>(alloc: Global) -> Arg<'a>
    ensures rule { rule_of result ≡ number_rule }
    ensures local { result.global ≡ false }
{
    Arg::new(alloc, "number")
        .required(true)
        .action(ArgAction::Set)
}

// The argument of `tune`: from 1 to 16 goals, each a word.
fn goals_argument<'a>(alloc: Global) -> Arg<'a>
    ensures rule { rule_of result ≡ goals_rule }
    ensures local { result.global ≡ false }
{
    Arg::new(alloc, "goals")
        .required(true)
        .num_args(1..=MAX_GOALS)
        .action(ArgAction::Set)
}
