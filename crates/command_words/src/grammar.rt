// The table of commands, as `clap` knows it.
ghost use Rattle.std.specs.Prelude.{◌≡◌, [], ◌∷◌, Some, false, true, IfOk, IfErr, map};
ghost use Rattle.clap.specs.Words.{app_of, kind_of, shape_of, subcommand_of, subcommand_rows_of};
ghost use Rattle.clap.specs.declared.builder.command.Command.TheViews.{out-Command as fields_of};
ghost use Rattle.command_words.specs.Grammar.{argument, gateway, leaf as leaf_of, line_of, program, texts_of, with_arguments as with_arguments_of, with_leaves as with_leaves_of};
ghost use Rattle.command_words.specs.Table.{is_row};

use clap::error::ErrorKind;
use clap::{Arg, ArgMatches, Command, Error};
use std::alloc::{AllocError, Global};

const TABLE: [(&str, &[&str]); 6] = [
    ("play", &[]),
    ("render", &["TEMPLATE", "BODY"]),
    ("check", &["FILE"]),
    ("serve", &["STORE", "PORT", "LANES"]),
    ("admin", &["STORE"]),
    ("load", &["SEED", "CALLS"]),
];

// A command with one argument more, which has to be there.
fn with_argument<'a>(
    alloc: Global,
    command: Command<'a>,
    name: &'a str,
) -> Result<Command<'a>, AllocError>
    requires { (fields_of command).has_globals ≡ false }
    ensures app { IfOk result (λ made. app_of made ≡ with_arguments_of (app_of command.entry) (name.now ∷ [])) }
    ensures local { IfOk result (λ made. (fields_of made).has_globals ≡ false) }
{
    command.arg(Arg::new(alloc, name).required(true))
}

// A command of this name with these arguments.
fn leaf<'a>(alloc: Global, name: &'a str, arguments: &[&'a str]) -> Result<Command<'a>, AllocError>
    ensures shape { IfOk result (λ made. shape_of made ≡ leaf_of (name.now, texts_of arguments.now)) }
    ensures local { IfOk result (λ made. (fields_of made).has_globals ≡ false) }
{
    let mut command = Command::new(alloc, name);
    let mut i = 0;
    while i < arguments.len() {
        command = with_argument(alloc, command, arguments[i])?;
        i += 1;
    }
    Ok(command)
}

// A command with one subcommand more.
fn with_leaf<'a>(
    alloc: Global,
    command: Command<'a>,
    row: (&'a str, &[&'a str]),
) -> Result<Command<'a>, AllocError>
    ensures { IfOk result (λ made. app_of made ≡ with_leaves_of (app_of command.entry) (line_of row.entry ∷ [])) }
{
    let (name, arguments) = row;
    let leaf = leaf(alloc, name, arguments)?;
    command.subcommand(leaf)
}

// A command with these rows as its subcommands.
fn with_leaves<'a>(
    alloc: Global,
    command: Command<'a>,
    rows: &[(&'a str, &[&'a str])],
) -> Result<Command<'a>, AllocError>
    ensures { IfOk result (λ made. app_of made ≡ with_leaves_of (app_of command.entry) (map line_of rows.now)) }
{
    let mut command = command;
    let mut i = 0;
    while i < rows.len() {
        command = with_leaf(alloc, command, rows[i])?;
        i += 1;
    }
    Ok(command)
}

// The program, as `clap` knows it.
fn gateway_command<'a>(alloc: Global) -> Result<Command<'a>, AllocError>
    ensures { IfOk result (λ made. app_of made ≡ gateway) }
{
    let program = Command::new(alloc, "gateway").no_binary_name(true);
    with_leaves(alloc, program, &TABLE)
}

/// What `clap` reads in words that stand in the table.
pub fn parse<'a>(alloc: Global, words: &'a [&'a str]) -> Result<ArgMatches<'a>, Error>
    requires { is_row (texts_of words.now) ≡ true }
    ensures rows { IfOk result (λ matches. subcommand_rows_of matches ≡ subcommand_of gateway (texts_of words.now)) }
    ensures memory { IfErr result (λ error. kind_of error ≡ ErrorKind.OutOfMemory) }
{
    gateway_command(alloc)?.try_get_matches_from(words)
}
