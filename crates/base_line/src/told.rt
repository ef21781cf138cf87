//! What `clap` is told of a command.

ghost use Rattle.std.specs.Prelude.{◌≡◌, IfOk, false};
ghost use Rattle.clap.specs.Words.{app_of, rule_of};
ghost use Rattle.base_line.specs.Told.{app_for, parser_for, rule_for, file_rule};

use crate::option::{Kind, Opt};
use clap::builder::ValueParser;
use clap::{Arg, ArgAction, Command};
use std::alloc::{AllocError, Global};

/// The command of these options, with FILEs after them or none.
pub fn command_of<'a>(
    alloc: Global,
    name: &'a str,
    options: &'a [Opt<'a>],
    files: bool,
) -> Result<Command<'a>, AllocError>
    ensures { IfOk result (λ command. app_of command ≡ app_for name.entry.now options.now files) }
{
    let mut command = Command::new(alloc, name)
        .no_binary_name(true)
        .disable_help_flag(true);
    'options: for option in options {
        command = command.arg(arg_of(alloc, option))?;
    }
    if files {
        command.arg(files_arg(alloc))
    } else {
        Ok(command)
    }
}

fn arg_of<'a>(alloc: Global, option: &Opt<'a>) -> Arg<'a>
    ensures rule { rule_of result ≡ rule_for option.now }
    ensures local { result.global ≡ false }
{
    Arg::new(alloc, option.name)
        .long(option.name)
        .required(option.required)
        .action(ArgAction::Set)
        .value_parser(parser_of(option.kind))
}

fn files_arg<'a>(alloc: Global) -> Arg<'a>
    ensures rule { rule_of result ≡ file_rule }
    ensures local { result.global ≡ false }
{
    Arg::new(alloc, "FILE")
        .required(true)
        .action(ArgAction::Append)
        .trailing_var_arg(true)
}

/// What `clap` checks of a value. The rest is checked after it.
fn parser_of<'a>(kind: Kind<'a>) -> ValueParser<'a>
    ensures { result ≡ parser_for kind.entry }
{
    match kind {
        Kind::Number(least, most) => ValueParser::Unsigned(least, most),
        Kind::Word(words) => ValueParser::Names(words),
        _ => ValueParser::NonEmptyString,
    }
}
