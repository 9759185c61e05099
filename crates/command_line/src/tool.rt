// The command line, as `clap` is told of it.
ghost use Rattle.std.specs.Prelude.{◌≡◌, IfOk, IsErr, false};
ghost use Rattle.clap.specs.Words.{app_of, rule_of, with_rule, with_subcommand};
ghost use Rattle.clap.specs.declared.Command.{out-Command};
ghost use Rattle.command_line.specs.Tool as spec;

use clap::{Arg, ArgAction, Command};
use std::alloc::{AllocError, Global};

/// The name of a file, or the size of a generated program.
fn name<'a>(alloc: Global) -> Arg<'a>
    ensures rule { rule_of result ≡ spec.name_rule }
    ensures local { result.global ≡ false }
{
    Arg::new(alloc, "name")
        .required(true)
        .action(ArgAction::Set)
}

/// The name of a script.
fn script<'a>(alloc: Global) -> Arg<'a>
    ensures rule { rule_of result ≡ spec.script_rule }
    ensures local { result.global ≡ false }
{
    Arg::new(alloc, "script").action(ArgAction::Set)
}

/// The name of arrivals.
fn arrivals<'a>(alloc: Global) -> Arg<'a>
    ensures rule { rule_of result ≡ spec.arrivals_rule }
    ensures local { result.global ≡ false }
{
    Arg::new(alloc, "arrivals").action(ArgAction::Set)
}

/// `--budget M` or `--budget=M`.
fn budget<'a>(alloc: Global) -> Arg<'a>
    ensures rule { rule_of result ≡ spec.budget_rule }
    ensures local { result.global ≡ false }
{
    Arg::new(alloc, "budget")
        .long("budget")
        .action(ArgAction::Set)
}

/// `--stats`.
fn stats<'a>(alloc: Global) -> Arg<'a>
    ensures rule { rule_of result ≡ spec.stats_rule }
    ensures local { result.global ≡ false }
{
    Arg::new(alloc, "stats")
        .long("stats")
        .action(ArgAction::SetTrue)
}

/// `--image`.
fn image<'a>(alloc: Global) -> Arg<'a>
    ensures rule { rule_of result ≡ spec.image_rule }
    ensures local { result.global ≡ false }
{
    Arg::new(alloc, "image")
        .long("image")
        .action(ArgAction::SetTrue)
}

/// A command with its names.
fn with_names<'a>(alloc: Global, line: Command<'a>) -> Result<Command<'a>, AllocError>
    requires { (out-Command line).has_globals ≡ false }
    ensures app { IfOk result (λ c. app_of c
        ≡ with_rule (with_rule (with_rule (app_of line.entry) spec.name_rule) spec.script_rule) spec.arrivals_rule) }
    ensures local { IfOk result (λ c. (out-Command c).has_globals ≡ false) }
{
    line.arg(name(alloc))?
        .arg(script(alloc))?
        .arg(arrivals(alloc))
}

/// The command of that name.
fn command<'a>(alloc: Global, text: &'a str) -> Result<Command<'a>, AllocError>
    ensures app { IfOk result (λ c. app_of c ≡ spec.command_app text.entry.now) }
    ensures local { IfOk result (λ c. (out-Command c).has_globals ≡ false) }
{
    let line = with_names(alloc, Command::new(alloc, text))?;
    line.arg(budget(alloc))?
        .arg(stats(alloc))?
        .arg(image(alloc))
}

/// The command line without its commands: no word stands before them, and there is no help.
fn bare<'a>(alloc: Global) -> Command<'a>
    ensures { app_of result ≡ spec.bare_app }
{
    Command::new(alloc, "sts")
        .no_binary_name(true)
        .disable_help_flag(true)
        .disable_help_subcommand(true)
        .subcommand_required(true)
}

/// Lets a value go where memory was wanting for another.
fn lost<T: Drop, R>(error: AllocError, it: T) -> Result<R, AllocError>
    ensures { IsErr result }
{
    let _ = it;
    Err(error)
}

/// The command line with one more command.
fn with_command<'a>(
    alloc: Global,
    line: Command<'a>,
    name: &'a str,
) -> Result<Command<'a>, AllocError>
    ensures { IfOk result (λ c. app_of c ≡ with_subcommand (app_of line.entry) (spec.command_app name.entry.now).top) }
{
    match command(alloc, name) {
        Ok(below) => line.subcommand(below),
        Err(error) => lost(error, line),
    }
}

/// The command line.
pub fn tool<'a>(alloc: Global) -> Result<Command<'a>, AllocError>
    ensures { IfOk result (λ c. app_of c ≡ spec.tool_app) }
{
    let line = with_command(alloc, bare(alloc), "check")?;
    let line = with_command(alloc, line, "build")?;
    let line = with_command(alloc, line, "run")?;
    let line = with_command(alloc, line, "run-hex")?;
    let line = with_command(alloc, line, "run-at")?;
    let line = with_command(alloc, line, "class")?;
    with_command(alloc, line, "big")
}
