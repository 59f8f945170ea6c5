// The command line's forms.
ghost use Rattle.std.specs.Prelude.{◌≡◌, IfOk, false};
ghost use Rattle.std.specs.List.{fold};
ghost use Rattle.clap.specs.Words.{app_of, rule_of};
ghost use Rattle.spi_commands.specs.Options.{bare, counted_rule, named_rule, row_words, whole_app, with_command};

use crate::words::{NUMBERS, WORDS};
use clap::{Arg, ArgAction, Command};
use std::alloc::{AllocError, Global};

/// An option with this name and a value.
fn named_form<'a>(alloc: Global, name: &'a str, required: bool) -> Arg<'a>
    ensures rule { rule_of result ≡ named_rule name.entry.now required }
    ensures local { result.global ≡ false }
{
    Arg::new(alloc, name)
        .long(name)
        .required(required)
        .action(ArgAction::Set)
}

/// A number that stands alone.
fn counted_form<'a>(alloc: Global) -> Arg<'a>
    ensures rule { rule_of result ≡ counted_rule }
    ensures local { result.global ≡ false }
{
    Arg::new(alloc, "count")
        .required(true)
        .action(ArgAction::Set)
}

/// The program, as yet with no command.
fn bare_form<'a>(alloc: Global) -> Command<'a>
    ensures { app_of result ≡ bare }
{
    Command::new(alloc, "cryptyc")
        .no_binary_name(true)
        .disable_help_flag(true)
        .disable_help_subcommand(true)
        .subcommand_required(true)
}

/// The program with one more command of a word, and where it is counted of a number behind it.
fn with_form<'a>(
    form: Command<'a>,
    alloc: Global,
    name: &'a str,
    counted: bool,
) -> Result<Command<'a>, AllocError>
    ensures { IfOk result (λ c. app_of c ≡ with_command counted (app_of form.entry) name.entry.now) }
{
    let command = Command::new(alloc, name);
    if counted {
        form.subcommand(command.arg(counted_form(alloc))?)
    } else {
        form.subcommand(command)
    }
}

/// The program with the commands of these words.
fn with_forms<'a, T>(
    form: Command<'a>,
    alloc: Global,
    rows: &[(&'a str, T)],
    counted: bool,
) -> Result<Command<'a>, AllocError>
    ensures { IfOk result
        (λ c. app_of c ≡ fold (with_command counted) (app_of form.entry) (row_words rows.now)) }
{
    let mut form = form;
    for row in rows {
        form = with_form(form, alloc, row.0, counted)?;
    }
    Ok(form)
}

/// The program with all its commands.
pub fn whole_form<'a>(alloc: Global) -> Result<Command<'a>, AllocError>
    ensures { IfOk result (λ c. app_of c ≡ whole_app) }
{
    let form = with_forms(bare_form(alloc), alloc, &WORDS, false)?;
    let play = Command::new(alloc, "play")
        .arg(named_form(alloc, "steps", true))?
        .arg(named_form(alloc, "player", false))?;
    let form = form.subcommand(play)?;
    with_forms(form, alloc, &NUMBERS, true)
}
