//! The parser of words.

ghost use Rattle.std.specs.Prelude.{◌≡◌, false, IfOk};
ghost use Rattle.clap.specs.Simple.{app_of};
ghost use Rattle.clap.specs.Walk.{rule_of};
ghost use Rattle.hy_words.specs.Parsers.{parser_of, flag_rule, option_rule, files_rule};
ghost use Rattle.hy_words.specs.Words.{syntax_of};

use crate::syntax::Syntax;
use clap::{Arg, ArgAction, Command};
use std::alloc::{AllocError, Global};

/// The name under which the names of files are found.
pub const FILES: &str = "FILE";

/// The parser of words: flags, options with one value each, and names of files before and behind `--`,
/// without help, version and subcommands.
pub fn parser_of<'a>(alloc: Global, syntax: Syntax<'a>) -> Result<Command<'a>, AllocError>
    ensures { IfOk result (λ command. app_of command ≡ parser_of (syntax_of syntax.entry)) }
{
    let mut command = Command::new(alloc, "words")
        .no_binary_name(true)
        .disable_help_flag(true)
        .disable_version_flag(true);
    for name in syntax.flags {
        command = command.arg(flag(alloc, *name))?;
    }
    for name in syntax.options {
        command = command.arg(option(alloc, *name))?;
    }
    command.arg(files(alloc))
}

fn flag<'a>(alloc: Global, name: &'a str) -> Arg<'a>
    ensures rule { rule_of result ≡ flag_rule name.entry.now }
    ensures local { result.global ≡ false }
{
    Arg::new(alloc, name).long(name).action(ArgAction::SetTrue)
}

fn option<'a>(alloc: Global, name: &'a str) -> Arg<'a>
    ensures rule { rule_of result ≡ option_rule name.entry.now }
    ensures local { result.global ≡ false }
{
    Arg::new(alloc, name).long(name).action(ArgAction::Set)
}

fn files<'a>(alloc: Global) -> Arg<'a>
    ensures rule { rule_of result ≡ files_rule }
    ensures local { result.global ≡ false }
{
    Arg::new(alloc, FILES).action(ArgAction::Append)
}
