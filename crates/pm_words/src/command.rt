//! The command that reads the words.
ghost use Rattle.std.specs.Prelude.{◌≡◌, IfOk, false, fold, map};
ghost use Rattle.clap.specs.Words.{app_of, rule_of};
ghost use Rattle.pm_words.specs.Lists.{Wanted, entry_of};
ghost use Rattle.pm_words.specs.Told.{app, bare_app, entry_app, value_rule, with_entry, word_app};

use crate::grammar::{Entry, WORDS};
use clap::{Arg, Command};
use std::alloc::{AllocError, Global};

// A value that has to be there.
fn value<'a>(alloc: Global, label: &'a str) -> Arg<'a>
    ensures rule { rule_of result ≡ value_rule label.now }
    ensures local { result.global ≡ false }
{
    Arg::new(alloc, label).required(true)
}

// A word with its numbers.
fn numbered<'a>(alloc: Global, entry: &Entry) -> Result<Command<'a>, AllocError>
    ensures { IfOk result (λ command. app_of command
        ≡ word_app (entry_of entry.now).name (map (λ (wanted : Wanted). wanted.label) (entry_of entry.now).wanted)) }
{
    let mut command = Command::new(alloc, entry.0);
    for wanted in entry.1 {
        command = command.arg(value(alloc, wanted.0))?;
    }
    Ok(command)
}

// A word with its values.
fn subcommand<'a>(alloc: Global, entry: &Entry) -> Result<Command<'a>, AllocError>
    ensures { IfOk result (λ command. app_of command ≡ entry_app (entry_of entry.now)) }
{
    let mut command = numbered(alloc, entry)?;
    for text in entry.2 {
        command = command.arg(value(alloc, text))?;
    }
    Ok(command)
}

// The program, which has no flag, and no word `help`.
fn bare<'a>(alloc: Global) -> Command<'a>
    ensures { app_of result ≡ bare_app }
{
    Command::new(alloc, "ngac")
        .no_binary_name(true)
        .disable_help_flag(true)
        .disable_help_subcommand(true)
        .subcommand_required(true)
}

// The program with these words.
fn with_words<'a>(alloc: Global, entries: &[Entry]) -> Result<Command<'a>, AllocError>
    ensures { IfOk result (λ command. app_of command ≡ fold with_entry bare_app (map entry_of entries.now)) }
{
    let mut command = bare(alloc);
    for entry in entries {
        command = command.subcommand(subcommand(alloc, entry)?)?;
    }
    Ok(command)
}

/// The command that reads the words.
pub(crate) fn make_command<'a>(alloc: Global) -> Result<Command<'a>, AllocError>
    ensures { IfOk result (λ command. app_of command ≡ app) }
{
    with_words(alloc, &WORDS)
}
