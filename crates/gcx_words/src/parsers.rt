//! The commands of `clap`, one for each form of arguments.
ghost use Rattle.std.specs.Prelude.{◌≡◌, IfOk};
ghost use Rattle.clap.specs.Words.{app_of, with_rule};
ghost use Rattle.gcx_words.specs.Words.{ahead_rule, app_by, check_app, many_app, numbers_app, pair_app, pair_rule, run_app, single_app, trace_rule, wanted, wanted_number};

use crate::command::CommandName;
use clap::builder::ValueParser;
use clap::{Arg, ArgAction, Command};
use gcx_base::Memory;
use std::alloc::Global;

/// The command with one argument more, which must be given.
fn with_wanted<'a>(alloc: Global, command: Command<'a>, id: &'a str) -> Result<Command<'a>, Memory>
    ensures { IfOk result (λ c. app_of c ≡ with_rule (app_of command.entry) (wanted id.entry.now)) }
{
    let arg = Arg::new(alloc, id).required(true);
    let command = command.arg(arg)?;
    Ok(command)
}

/// The same of a number between two.
fn with_number<'a>(
    alloc: Global,
    command: Command<'a>,
    id: &'a str,
    low: u64,
    high: u64,
) -> Result<Command<'a>, Memory>
    ensures { IfOk result (λ c. app_of c ≡ with_rule (app_of command.entry) (wanted_number id.entry.now low high)) }
{
    let arg = Arg::new(alloc, id)
        .required(true)
        .value_parser(ValueParser::unsigned(low, high));
    let command = command.arg(arg)?;
    Ok(command)
}

/// The command with `[--trace]`.
fn with_trace<'a>(alloc: Global, command: Command<'a>) -> Result<Command<'a>, Memory>
    ensures { IfOk result (λ c. app_of c ≡ with_rule (app_of command.entry) trace_rule) }
{
    let arg = Arg::new(alloc, "trace")
        .long("trace")
        .action(ArgAction::SetTrue);
    let command = command.arg(arg)?;
    Ok(command)
}

/// The command with `[--ahead K]`.
fn with_ahead<'a>(alloc: Global, command: Command<'a>) -> Result<Command<'a>, Memory>
    ensures { IfOk result (λ c. app_of c ≡ with_rule (app_of command.entry) ahead_rule) }
{
    let arg = Arg::new(alloc, "ahead")
        .long("ahead")
        .value_parser(ValueParser::unsigned(1, 1000));
    let command = command.arg(arg)?;
    Ok(command)
}

/// `run [--trace] [--ahead K] QUERY DOC`.
fn run_parser<'a>(alloc: Global) -> Result<Command<'a>, Memory>
    ensures { IfOk result (λ c. app_of c ≡ run_app) }
{
    let command = with_trace(alloc, Command::new(alloc, "run"))?;
    let command = with_ahead(alloc, command)?;
    let command = with_wanted(alloc, command, "query")?;
    let command = with_wanted(alloc, command, "document")?;
    Ok(command)
}

/// `whole QUERY DOC`, or another command with these two.
fn pair_parser<'a>(alloc: Global, name: &'a str) -> Result<Command<'a>, Memory>
    ensures { IfOk result (λ c. app_of c ≡ pair_app name.entry.now) }
{
    let command = with_wanted(alloc, Command::new(alloc, name), "query")?;
    let command = with_wanted(alloc, command, "document")?;
    Ok(command)
}

/// `check QUERY DOC TRACE`.
fn check_parser<'a>(alloc: Global) -> Result<Command<'a>, Memory>
    ensures { IfOk result (λ c. app_of c ≡ check_app) }
{
    let command = pair_parser(alloc, "check")?;
    let command = with_wanted(alloc, command, "trace")?;
    Ok(command)
}

/// `explain QUERY`.
fn single_parser<'a>(alloc: Global) -> Result<Command<'a>, Memory>
    ensures { IfOk result (λ c. app_of c ≡ single_app) }
{
    let command = with_wanted(alloc, Command::new(alloc, "explain"), "query")?;
    Ok(command)
}

/// `gen SEED N`, or another command with these two.
fn numbers_parser<'a>(alloc: Global, name: &'a str) -> Result<Command<'a>, Memory>
    ensures { IfOk result (λ c. app_of c ≡ numbers_app name.entry.now) }
{
    let command = Command::new(alloc, name);
    let command = with_number(alloc, command, "seed", 0, 4_294_967_295)?;
    let command = with_number(alloc, command, "count", 1, 100_000)?;
    Ok(command)
}

/// The command with one argument more, which takes at least one word.
fn with_pairs<'a>(alloc: Global, command: Command<'a>) -> Result<Command<'a>, Memory>
    ensures { IfOk result (λ c. app_of c ≡ with_rule (app_of command.entry) pair_rule) }
{
    let arg = Arg::new(alloc, "pair").required(true).num_args(1..);
    let command = command.arg(arg)?;
    Ok(command)
}

/// `many DOC PAIR ..`.
fn many_parser<'a>(alloc: Global) -> Result<Command<'a>, Memory>
    ensures { IfOk result (λ c. app_of c ≡ many_app) }
{
    let command = with_wanted(alloc, Command::new(alloc, "many"), "document")?;
    let command = with_pairs(alloc, command)?;
    Ok(command)
}

/// The parser of the command of this name.
pub(crate) fn parser_of<'a>(alloc: Global, name: CommandName) -> Result<Command<'a>, Memory>
    ensures { IfOk result (λ c. app_of c ≡ app_by name) }
{
    match name {
        CommandName::Run => run_parser(alloc),
        CommandName::Whole => pair_parser(alloc, "whole"),
        CommandName::Explain => single_parser(alloc),
        CommandName::Peak => pair_parser(alloc, "peak"),
        CommandName::Gen => numbers_parser(alloc, "gen"),
        CommandName::Selfrun => numbers_parser(alloc, "selfrun"),
        CommandName::Many => many_parser(alloc),
        CommandName::Check => check_parser(alloc),
    }
}
