// The words, read.
ghost use Rattle.std.specs.Prelude.{◌≡◌, IfOk, IfSome, true};
ghost use Rattle.clap.specs.Words.{found_of, rows_of, subcommand_rows_of};
ghost use Rattle.command_words.specs.Commands.{about_of, command_of, other_of, IsWithin};
ghost use Rattle.command_words.specs.Grammar.{texts_of};
ghost use Rattle.command_words.specs.Reading.{command_by as command_by_name, load_by as load_by_rows, read_in, serve_by as serve_by_rows, word_of as word_of_rows};
ghost use Rattle.command_words.specs.Table.{is_row as is_row_of};

use crate::commands::Command;
use crate::grammar::parse;
use crate::numbers::number_to;
use crate::table::is_row;
use clap::ArgMatches;
use gw_base::{Memory, Text};
use record_fields::number;
use std::alloc::{AllocError, Global};

// The word of this name.
fn word_of<'a>(matches: &ArgMatches<'a>, name: &str) -> &'a str
    ensures { result.now ≡ word_of_rows name.now (rows_of (found_of matches.now)) }
{
    matches.get_str(name).unwrap_or("")
}

fn copied(alloc: Global, matches: &ArgMatches<'_>, name: &str) -> Result<Text, Memory>
    ensures { IfOk result (λ text. text ≡ word_of_rows name.now (rows_of (found_of matches.now))) }
{
    Ok(Text::of(String::from_str(alloc, word_of(matches, name))?))
}

// A store that is to be served, where the port and the lanes are numbers.
fn serve_by(alloc: Global, matches: &ArgMatches<'_>) -> Result<Option<Command>, Memory>
    ensures { IfOk result (λ command. command ≡ serve_by_rows (rows_of (found_of matches.now))) }
{
    let port = number_to(65_535, word_of(matches, "PORT"));
    let lanes = number_to(8, word_of(matches, "LANES"));
    match (port, lanes) {
        (Some(port), Some(lanes)) => Ok(Some(Command::Serve {
            store: copied(alloc, matches, "STORE")?,
            port: port as u16,
            lanes: lanes as usize,
        })),
        _ => Ok(None),
    }
}

// A load, where the seed and the calls are numbers.
fn load_by(matches: &ArgMatches<'_>) -> Option<Command>
    ensures { result ≡ load_by_rows (rows_of (found_of matches.now)) }
{
    let seed = number(word_of(matches, "SEED").as_bytes())?;
    let calls = number_to(300_000, word_of(matches, "CALLS"))?;
    Some(Command::Load { seed, calls })
}

// The command of this name, with its arguments.
fn command_by(
    alloc: Global,
    name: &str,
    matches: &ArgMatches<'_>,
) -> Result<Option<Command>, Memory>
    ensures { IfOk result (λ command. command ≡ command_by_name name.now (rows_of (found_of matches.now))) }
{
    match name {
        "play" => Ok(Some(Command::Play)),
        "render" => Ok(Some(Command::Render {
            template: copied(alloc, matches, "TEMPLATE")?,
            body: copied(alloc, matches, "BODY")?,
        })),
        "check" => Ok(Some(Command::Check {
            name: copied(alloc, matches, "FILE")?,
        })),
        "serve" => serve_by(alloc, matches),
        "admin" => Ok(Some(Command::Admin {
            store: copied(alloc, matches, "STORE")?,
        })),
        "load" => Ok(load_by(matches)),
        _ => Ok(None),
    }
}

// The command that was read.
fn command_in(alloc: Global, matches: &ArgMatches<'_>) -> Result<Option<Command>, Memory>
    ensures { IfOk result (λ command. command ≡ read_in (subcommand_rows_of matches.now)) }
{
    match matches.subcommand() {
        Some((name, arguments)) => command_by(alloc, name, arguments),
        None => Ok(None),
    }
}

// The texts, lent.
fn lent<'a>(alloc: Global, words: &'a [Text]) -> Result<Vec<&'a str>, AllocError>
    ensures { IfOk result (λ texts. texts_of texts.items ≡ words.now) }
{
    words.iter().map(|word| word.as_str()).collect(alloc)
}

// What words in the table ask for.
fn read_row(alloc: Global, words: &[Text]) -> Result<Option<Command>, Memory>
    requires { is_row_of words.now ≡ true }
    ensures { IfOk result (λ command. command ≡ other_of words.now) }
{
    let texts = lent(alloc, words)?;
    match parse(alloc, &texts) {
        Ok(matches) => command_in(alloc, &matches),
        Err(_) => Err(Memory),
    }
}

// `help` or `version`, where one is asked for. `clap` has a `help` of its own, so these words do not go to it.
fn about(words: &[Text]) -> Option<Command>
    ensures { result ≡ about_of words.now }
{
    match words {
        [name] if name.as_str() == "help" => Some(Command::Help),
        [name] if name.as_str() == "version" => Some(Command::Version),
        _ => None,
    }
}

// What words ask for beyond these.
fn read_other(alloc: Global, words: &[Text]) -> Result<Option<Command>, Memory>
    ensures { IfOk result (λ command. command ≡ other_of words.now) }
{
    if is_row(words) {
        read_row(alloc, words)
    } else {
        Ok(None)
    }
}

/// What the words behind the program's name ask for.
#[tactic(auto, unfolding(crate::specs::Commands::command_of))]
pub fn read_words(alloc: Global, words: &[Text]) -> Result<Option<Command>, Memory>
    ensures command { IfOk result (λ command. command ≡ command_of words.now) }
    ensures within { IfOk result (λ command. IfSome command IsWithin) }
{
    match about(words) {
        Some(command) => Ok(Some(command)),
        None => read_other(alloc, words),
    }
}
