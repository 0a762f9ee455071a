//! What the words of a call ask for.
ghost use Rattle.std.specs.Prelude.{◌≡◌, IfOk, map, drop, string_bytes, option_map};
ghost use Rattle.std.specs.List.{list_any};
ghost use Rattle.clap.specs.Matches.{found_of};
ghost use Rattle.clap.specs.Simple.{subcommand_rows_of};
ghost use Rattle.clap.specs.Walk.{first_of, rows_of};
ghost use Rattle.call_words.specs.Asks.{asked_by};
ghost use Rattle.call_words.specs.Words.{begins_with_dash, reading};
ghost use Rattle.call_words.specs.inside.Forms.{asked_from, values_by, values_of};

use crate::command::Command;
use crate::forms::program;
use clap::ArgMatches;
use clap::error::ErrorKind;
use script_lines::decimal;
use std::alloc::{AllocError, Global};

/// The command that the words ask for: its name, and exactly its words, none of which begins with a dash. `None` where
/// they have no such reading. An `Err` is want of memory.
pub fn read_words<'a>(alloc: Global, words: &'a [String]) -> Result<Option<Command<'a>>, AllocError>
    ensures { IfOk result (λ command. option_map asked_by command ≡ reading (map string_bytes words.now)) }
{
    if has_option(words) {
        return Ok(None);
    }
    match program(alloc)?.try_get_matches_from(words) {
        Ok(matches) => Ok(command_in(&matches, behind_name(words))),
        Err(error) => match error.kind() {
            ErrorKind::OutOfMemory => Err(AllocError),
            _ => Ok(None),
        },
    }
}

/// Whether some word is an option: there are none that a command takes.
fn has_option(words: &[String]) -> bool
    ensures { result ≡ list_any (λ word. begins_with_dash (string_bytes word)) words.now }
{
    words.iter().any(|word| is_option(word.as_bytes()))
}

/// Whether a word begins with a dash.
fn is_option(word: &[u8]) -> bool
    ensures { result ≡ begins_with_dash word.now }
{
    match word {
        [first, ..] => *first == b'-',
        [] => false,
    }
}

/// The words behind the command's name.
fn behind_name(words: &[String]) -> &[String]
    ensures { result.now ≡ drop 1 words.now }
{
    match words {
        [_, rest @ ..] => rest,
        [] => words,
    }
}

/// The command of the subcommand that was met, with these words behind its name.
fn command_in<'a>(matches: &ArgMatches<'a>, words: &'a [String]) -> Option<Command<'a>>
    ensures { option_map asked_by result
        ≡ asked_from (map string_bytes words.now) (subcommand_rows_of matches.now) }
{
    let (name, values) = matches.subcommand()?;
    command_by(name, words, values)
}

/// The command of a name, with the words behind it and its values.
fn command_by<'a>(name: &str, words: &'a [String], values: &ArgMatches<'a>) -> Option<Command<'a>>
    ensures { option_map asked_by result
        ≡ values_by name.now (map string_bytes words.now) (rows_of (found_of values.now)) }
{
    match name {
        "diff" => {
            let (pre, post) = values_of(values, "pre", "post")?;
            Some(Command::Diff { pre, post })
        }
        "code" => {
            let (image, name) = values_of(values, "image", "name")?;
            Some(Command::Code { image, name })
        }
        "match" => {
            let (image, pre) = values_of(values, "image", "pre")?;
            Some(Command::Match { image, pre })
        }
        "run" => {
            let (image, script) = values_of(values, "image", "script")?;
            Some(Command::Run { image, script })
        }
        "gen" => {
            let number = decimal(value_of(values, "number")?.as_bytes())?;
            Some(Command::Gen { number })
        }
        "link" => Some(Command::Link { objects: words }),
        _ => None,
    }
}

/// The value of a word.
fn value_of<'a>(values: &ArgMatches<'a>, id: &str) -> Option<&'a str>
    ensures { option_map (λ value. value.now) result ≡ first_of id.now (rows_of (found_of values.now)) }
{
    values.get_str(id)
}

/// The values of two words.
fn values_of<'a>(values: &ArgMatches<'a>, first: &str, second: &str) -> Option<(&'a str, &'a str)>
    ensures { option_map (λ both. (both.0.now, both.1.now)) result
        ≡ values_of first.now second.now (rows_of (found_of values.now)) }
{
    Some((value_of(values, first)?, value_of(values, second)?))
}
