//! The command of a table, as `clap` builds it.

ghost use Rattle.std.specs.Prelude.{◌≡◌, false, IfOk};
ghost use Rattle.clap.specs.Walk.{rule_of};
ghost use Rattle.clap.specs.Simple.{app_of, with_rule};
ghost use Rattle.clap_words.specs.Table.{names_of, opt_of, options_of, opts_of, plain_of};
ghost use Rattle.clap_words.specs.TableApp.{flag_rule, named_rule, named_rules, option_rule, plain_rule};
ghost use Rattle.clap_words.specs.TableApp.{plain_rules, table_app, valued_rule, with_rules};

use crate::table::{Kind, OptionRow, Table};
use clap::builder::ValueParser;
use clap::{Arg, ArgAction, Command};
use std::alloc::{AllocError, Global};

// What has a value, which is not empty.
fn valued<'a>(alloc: Global, name: &'a str) -> Arg<'a>
    ensures rule { rule_of result ≡ valued_rule name.entry.now }
    ensures local { result.global ≡ false }
{
    Arg::new(alloc, name)
        .action(ArgAction::Set)
        .value_parser(ValueParser::NonEmptyString)
}

// A plain word, which has to be there.
fn plain<'a>(alloc: Global, name: &'a str) -> Arg<'a>
    ensures rule { rule_of result ≡ plain_rule name.entry.now }
    ensures local { result.global ≡ false }
{
    valued(alloc, name).required(true)
}

// An option with a value.
fn option<'a>(alloc: Global, name: &'a str) -> Arg<'a>
    ensures rule { rule_of result ≡ option_rule name.entry.now }
    ensures local { result.global ≡ false }
{
    valued(alloc, name).long(name)
}

// An option without a value.
fn flag<'a>(alloc: Global, name: &'a str) -> Arg<'a>
    ensures rule { rule_of result ≡ flag_rule name.entry.now }
    ensures local { result.global ≡ false }
{
    Arg::new(alloc, name).long(name).action(ArgAction::SetTrue)
}

// The option of a row.
fn named<'a>(alloc: Global, row: &OptionRow) -> Arg<'a>
    ensures rule { rule_of result ≡ named_rule (opt_of row.now) }
    ensures local { result.global ≡ false }
{
    match row.kind {
        Kind::Flag => flag(alloc, row.name),
        Kind::Text => option(alloc, row.name),
        Kind::Number(_) => option(alloc, row.name),
    }
}

// The command with one more argument.
fn add<'a>(command: Command<'a>, arg: Arg<'a>) -> Result<Command<'a>, AllocError>
    requires { arg.global ≡ false }
    ensures { IfOk result (λ c. app_of c ≡ with_rule (app_of command.entry) (rule_of arg.entry)) }
{
    command.arg(arg)
}

// The command with these plain words.
fn add_plain<'a>(
    alloc: Global,
    command: Command<'a>,
    names: &[&'static str],
) -> Result<Command<'a>, AllocError>
    ensures { IfOk result (λ c. app_of c ≡ with_rules (plain_rules (names_of names.now)) (app_of command.entry)) }
{
    let mut command = command;
    for name in names {
        command = add(command, plain(alloc, name))?;
    }
    Ok(command)
}

// The command with these options.
fn add_options<'a>(
    alloc: Global,
    command: Command<'a>,
    rows: &[OptionRow],
) -> Result<Command<'a>, AllocError>
    ensures { IfOk result (λ c. app_of c ≡ with_rules (named_rules (opts_of rows.now)) (app_of command.entry)) }
{
    let mut command = command;
    for row in rows {
        command = add(command, named(alloc, row))?;
    }
    Ok(command)
}

/// The command of a table.
pub fn build_command<'a>(alloc: Global, table: &Table) -> Result<Command<'a>, AllocError>
    ensures { IfOk result (λ c. app_of c ≡ table_app (plain_of table.now) (options_of table.now)) }
{
    let command = Command::new(alloc, "words")
        .no_binary_name(true)
        .disable_help_flag(true);
    let command = add_plain(alloc, command, table.plain)?;
    add_options(alloc, command, table.options)
}
