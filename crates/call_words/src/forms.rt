//! The commands as clap sees them.
ghost use Rattle.std.specs.Prelude.{IfOk};
ghost use Rattle.call_words.specs.inside.Forms.{AddsForm, HasForm, bare_program, form_of_several, form_of_two, program};

use clap::{Arg, Command};
use std::alloc::{AllocError, Global};

/// The program: its subcommands are the commands.
pub(crate) fn program<'a>(alloc: Global) -> Result<Command<'a>, AllocError>
    ensures { IfOk result (HasForm program) }
{
    let program = with_two_words(alloc, bare_program(alloc), "diff", "pre", "post")?;
    let program = with_two_words(alloc, program, "code", "image", "name")?;
    let program = with_two_words(alloc, program, "match", "image", "pre")?;
    let program = with_two_words(alloc, program, "run", "image", "script")?;
    let program = with_words(alloc, program, "gen", "number", 1)?;
    with_words(alloc, program, "link", "objects", 16)
}

/// The program without its commands.
fn bare_program<'a>(alloc: Global) -> Command<'a>
    ensures { HasForm bare_program result }
{
    Command::new(alloc, "ksplice")
        .no_binary_name(true)
        .subcommand_required(true)
        .disable_help_flag(true)
        .disable_help_subcommand(true)
}

/// The program with one more command, of two words.
fn with_two_words<'a>(
    alloc: Global,
    program: Command<'a>,
    name: &'a str,
    first: &'a str,
    second: &'a str,
) -> Result<Command<'a>, AllocError>
    ensures { IfOk result (AddsForm program.entry (form_of_two name.now first.now second.now)) }
{
    let command = Command::new(alloc, name)
        .arg(Arg::new(alloc, first).required(true))?
        .arg(Arg::new(alloc, second).required(true))?;
    program.subcommand(command)
}

/// The program with one more command, of one to `most` words.
fn with_words<'a>(
    alloc: Global,
    program: Command<'a>,
    name: &'a str,
    words: &'a str,
    most: usize,
) -> Result<Command<'a>, AllocError>
    ensures { IfOk result (AddsForm program.entry (form_of_several name.now words.now most)) }
{
    let words = Arg::new(alloc, words).required(true).num_args(1..=most);
    let command = Command::new(alloc, name).arg(words)?;
    program.subcommand(command)
}
