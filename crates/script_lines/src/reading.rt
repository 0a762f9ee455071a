//! Reading a script.
ghost use Rattle.std.specs.Prelude.{◌≡◌, ◌++◌, IfOk, OnOk, option_to_list};
ghost use Rattle.std.specs.List.{All};
ghost use Rattle.ks_base.specs.Gives.{Gives};
ghost use Rattle.script_lines.specs.Script.{script_of};
ghost use Rattle.script_lines.specs.Allowed.{IsAllowed};

use crate::forms::asked_in;
use crate::lines::first_line;
use crate::types::{Command, Script};
use ks_base::Refusal;
use std::alloc::{AllocError, Global};

/// A script has at most so many lines.
const MOST_LINES: u32 = 65_536;

/// The commands of a script, in order; blank lines and comments give none. Each keeps the bounds of its line's form.
///
/// [`Refusal::BadLine`] has the number of the first line that isn't in the grammar, counted from 1, and
/// comes exactly where there is one; a line after 65,536 others is never in the grammar.
/// [`Refusal::Memory`] comes only if memory runs out.
#[tactic(auto, unfolding(crate::specs::Script::script_of))]
pub fn read_script(alloc: Global, bytes: &[u8]) -> Result<Script, Refusal>
    ensures exact { Gives (λ script. script) result (script_of bytes.now) }
    ensures allowed { IfOk result (λ script. All IsAllowed script) }
{
    let mut script = Script::new(alloc);
    let mut number = 0;
    let mut rest = bytes;
    while !rest.is_empty() {
        let (line, after) = first_line(rest);
        number += 1;
        if number > MOST_LINES {
            return Err(Refusal::BadLine(number));
        }
        let Some(asked) = asked_in(alloc, line)? else {
            return Err(Refusal::BadLine(number));
        };
        push_asked(&mut script, asked)?;
        rest = after;
    }
    Ok(script)
}

/// Appends what a line asks for.
fn push_asked(script: &mut Script, asked: Option<Command>) -> Result<(), AllocError>
    ensures { OnOk result (script.new ≡ script.old ++ option_to_list asked) }
{
    match asked {
        Some(command) => script.push(command),
        None => Ok(()),
    }
}
