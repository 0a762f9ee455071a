//! The lines of replies.
ghost use Rattle.std.specs.Prelude.{◌≡◌, ◌≤◌, ◌++◌, IfOk, OnOk, map, length};
ghost use Rattle.std.specs.List.{slice_split, flat_map};
ghost use Rattle.script_lines.specs.Lines.{is_line_end, without_empty_last};
ghost use Rattle.ksplice_calls.specs.Works.{begins_with, count_with, ended_line, last_three};

use std::alloc::{AllocError, Global};

/// The parts of a text between its line ends.
pub(crate) fn parts_of<'a>(alloc: Global, text: &'a [u8]) -> Result<Vec<&'a [u8]>, AllocError>
    ensures { IfOk result (λ parts. map (λ part. part.now) parts.items ≡ slice_split is_line_end text.now) }
{
    text.split(|byte| *byte == b'\n').collect(alloc)
}

/// Parts without the last one, where that is empty.
pub(crate) fn without_empty_last<'l, 'a>(parts: &'l [&'a [u8]]) -> &'l [&'a [u8]]
    ensures { map (λ line. line.now) result.now ≡ without_empty_last (map (λ part. part.now) parts.now) }
{
    match parts {
        [rest @ .., last] if last.is_empty() => rest,
        _ => parts,
    }
}

/// Whether a line begins with a text.
fn begins_with(line: &[u8], text: &[u8]) -> bool
    ensures { result ≡ begins_with text.now line.now }
{
    line.starts_with(text)
}

/// How many lines begin with a text.
pub(crate) fn count_with(lines: &[&[u8]], text: &[u8]) -> usize
    ensures { result ≡ count_with text.now (map (λ line. line.now) lines.now) }
{
    let mut count = 0;
    for line in lines {
        if begins_with(line, text) {
            count += 1;
        }
    }
    count
}

/// The last three lines, or all where they are fewer.
pub(crate) fn last_three<'l, 'a>(lines: &'l [&'a [u8]]) -> &'l [&'a [u8]]
    ensures { map (λ line. line.now) result.now ≡ last_three (map (λ line. line.now) lines.now) }
{
    &lines[lines.len().saturating_sub(3)..]
}

/// Appends lines, each with its end.
pub(crate) fn put_lines(to: &mut Vec<u8>, lines: &[&[u8]]) -> Result<(), AllocError>
    ensures { OnOk result (to.new.items ≡ to.old.items ++ flat_map ended_line (map (λ line. line.now) lines.now)) }
{
    for line in lines {
        put_line(to, line)?;
    }
    Ok(())
}

fn put_line(to: &mut Vec<u8>, line: &[u8]) -> Result<(), AllocError>
    ensures { OnOk result (to.new.items ≡ to.old.items ++ ended_line line.now) }
{
    to.extend_from_slice(line)?;
    to.push(b'\n')?;
    Ok(())
}
