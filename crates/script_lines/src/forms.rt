//! The forms of a line.
ghost use Rattle.std.specs.Prelude.{◌≡◌, IfOk, option_map, bytes_eq};
ghost use Rattle.script_lines.specs.Lines.{words_of};
ghost use Rattle.script_lines.specs.Forms.{only, two, three, first_three, alone, spawn_of, step_of};
ghost use Rattle.script_lines.specs.Forms.{round_robin_of, peek_of, tries_of, tries_or_one, apply_of, hooks_of, poke_of, undo_of};
ghost use Rattle.script_lines.specs.Forms.{update_command_of, command_of, is_comment, asked_in};

use crate::lines::{first_word, is_plain};
use crate::numbers::{number_of, number_within};
use crate::types::Command;
use ks_base::Name;
use std::alloc::{AllocError, Global};

/// A command runs at most so many instructions.
const MOST_STEPS: u32 = 16_777_216;

/// An update is tried at most so often.
const MOST_TRIES: u32 = 1000;

/// A command shows at most so many bytes.
const MOST_BYTES: u32 = 4096;

/// How many addresses there are.
const ADDRESSES: u64 = 1 << 32;

/// What a line asks for: a command, or `Some(None)` for a blank or a comment. `None` where it isn't in
/// the grammar.
pub(crate) fn asked_in(alloc: Global, line: &[u8]) -> Result<Option<Option<Command>>, AllocError>
    ensures { IfOk result (λ asked. asked ≡ asked_in line.now) }
{
    if !is_plain(line) {
        return Ok(None);
    }
    let Some((word, text)) = first_word(line) else {
        return Ok(Some(None));
    };
    if is_comment(word) {
        return Ok(Some(None));
    }
    Ok(command_of(alloc, word, text)?.map(Some))
}

/// Whether a word begins a comment.
fn is_comment(word: &[u8]) -> bool
    ensures { result ≡ is_comment word.now }
{
    match word {
        [first, ..] => *first == b'#',
        [] => false,
    }
}

/// The command of a first word and the text after it.
fn command_of(alloc: Global, word: &[u8], text: &[u8]) -> Result<Option<Command>, AllocError>
    ensures { IfOk result (λ command. command ≡ command_of word.now (words_of text.now)) }
{
    if is(word, b"spawn") {
        return spawn_of(alloc, text);
    }
    if is(word, b"step") {
        return Ok(step_of(text));
    }
    if is(word, b"rr") {
        return Ok(round_robin_of(text));
    }
    if is(word, b"threads") {
        return Ok(alone(Command::Threads, text));
    }
    if is(word, b"peek") {
        return Ok(peek_of(text));
    }
    if is(word, b"watch") {
        return Ok(alone(Command::Watch, text));
    }
    update_command_of(alloc, word, text)
}

/// The command on updates of a first word and the text after it.
fn update_command_of(alloc: Global, word: &[u8], text: &[u8]) -> Result<Option<Command>, AllocError>
    ensures { IfOk result (λ command. command ≡ update_command_of word.now (words_of text.now)) }
{
    if is(word, b"apply") {
        return apply_of(alloc, text);
    }
    if is(word, b"hooks") {
        return hooks_of(alloc, text);
    }
    if is(word, b"poke") {
        return poke_of(alloc, text);
    }
    if is(word, b"tail") {
        return Ok(alone(Command::Tail, text));
    }
    if is(word, b"seal") {
        return Ok(alone(Command::Seal, text));
    }
    if is(word, b"undo") {
        return undo_of(alloc, text);
    }
    if is(word, b"list") {
        return Ok(alone(Command::ListUpdates, text));
    }
    Ok(None)
}

fn is(word: &[u8], name: &[u8]) -> bool
    ensures { result ≡ bytes_eq word.now name.now }
{
    word == name
}

/// `spawn NAME ARG`
fn spawn_of(alloc: Global, text: &[u8]) -> Result<Option<Command>, AllocError>
    ensures { IfOk result (λ command. command ≡ spawn_of (words_of text.now)) }
{
    let Some((name, argument)) = two(text) else {
        return Ok(None);
    };
    let Some(argument) = number_of(argument) else {
        return Ok(None);
    };
    let name = Name::from_slice(alloc, name)?;
    Ok(Some(Command::Spawn { name, argument }))
}

/// `step T N`
fn step_of(text: &[u8]) -> Option<Command>
    ensures { result ≡ step_of (words_of text.now) }
{
    let (thread, steps) = two(text)?;
    let thread = number_of(thread)?;
    let steps = number_within(steps, 0, MOST_STEPS)?;
    Some(Command::Step { thread, steps })
}

/// `rr Q N`
fn round_robin_of(text: &[u8]) -> Option<Command>
    ensures { result ≡ round_robin_of (words_of text.now) }
{
    let (quantum, steps) = two(text)?;
    let quantum = number_within(quantum, 1, u32::MAX)?;
    let steps = number_within(steps, 0, MOST_STEPS)?;
    Some(Command::RoundRobin { quantum, steps })
}

/// A command that takes no word.
fn alone(command: Command, text: &[u8]) -> Option<Command>
    ensures { result ≡ alone command (words_of text.now) }
{
    match first_word(text) {
        None => Some(command),
        Some(_) => None,
    }
}

/// `peek ADDRESS N`
fn peek_of(text: &[u8]) -> Option<Command>
    ensures { result ≡ peek_of (words_of text.now) }
{
    let (address, count) = two(text)?;
    let address = number_of(address)?;
    let count = number_within(count, 1, MOST_BYTES)?;
    if u64::from(address) + u64::from(count) > ADDRESSES {
        return None;
    }
    Some(Command::Peek { address, count })
}

/// `apply NAME PRE POST`, or `apply NAME PRE POST tries K gap N`
fn apply_of(alloc: Global, text: &[u8]) -> Result<Option<Command>, AllocError>
    ensures { IfOk result (λ command. command ≡ apply_of (words_of text.now)) }
{
    let Some((name, pre, post, rest)) = first_three(text) else {
        return Ok(None);
    };
    let Some((tries, gap)) = tries_or_one(rest) else {
        return Ok(None);
    };
    let name = Name::from_slice(alloc, name)?;
    let pre = Name::from_slice(alloc, pre)?;
    let post = Name::from_slice(alloc, post)?;
    Ok(Some(Command::Apply {
        name,
        pre,
        post,
        tries,
        gap,
    }))
}

/// `hooks NAME PRE POST`
fn hooks_of(alloc: Global, text: &[u8]) -> Result<Option<Command>, AllocError>
    ensures { IfOk result (λ command. command ≡ hooks_of (words_of text.now)) }
{
    let Some((name, pre, post)) = three_names(alloc, text)? else {
        return Ok(None);
    };
    Ok(Some(Command::Hooks { name, pre, post }))
}

/// `poke NAME PRE POST`
fn poke_of(alloc: Global, text: &[u8]) -> Result<Option<Command>, AllocError>
    ensures { IfOk result (λ command. command ≡ poke_of (words_of text.now)) }
{
    let Some((name, pre, post)) = three_names(alloc, text)? else {
        return Ok(None);
    };
    Ok(Some(Command::Poke { name, pre, post }))
}

/// The three words, as names, of a text that has no more and no fewer.
fn three_names(alloc: Global, text: &[u8]) -> Result<Option<(Name, Name, Name)>, AllocError>
    ensures { IfOk result (λ names. names ≡ three (words_of text.now)) }
{
    let Some((first, second, third)) = three(text) else {
        return Ok(None);
    };
    let first = Name::from_slice(alloc, first)?;
    let second = Name::from_slice(alloc, second)?;
    let third = Name::from_slice(alloc, third)?;
    Ok(Some((first, second, third)))
}

/// `undo`, or `undo NAME`
fn undo_of(alloc: Global, text: &[u8]) -> Result<Option<Command>, AllocError>
    ensures { IfOk result (λ command. command ≡ undo_of (words_of text.now)) }
{
    let Some((name, rest)) = first_word(text) else {
        return Ok(Some(Command::Undo));
    };
    if first_word(rest).is_some() {
        return Ok(None);
    }
    let name = Name::from_slice(alloc, name)?;
    Ok(Some(Command::UndoNamed { name }))
}

/// How often an update is tried, and how many steps are made between two tries: once where there are no words.
fn tries_or_one(text: &[u8]) -> Option<(u32, u32)>
    ensures { result ≡ tries_or_one (words_of text.now) }
{
    match first_word(text) {
        None => Some((1, 0)),
        Some(_) => tries_of(text),
    }
}

/// `tries K gap N`
fn tries_of(text: &[u8]) -> Option<(u32, u32)>
    ensures { result ≡ tries_of (words_of text.now) }
{
    let (first, tries, second, rest) = first_three(text)?;
    let gap = only(rest)?;
    let tries = number_within(tries, 1, MOST_TRIES)?;
    let gap = number_of(gap)?;
    let steps = u64::from(tries) * u64::from(gap);
    if !is(first, b"tries") || !is(second, b"gap") || steps > u64::from(MOST_STEPS) {
        return None;
    }
    Some((tries, gap))
}

/// The one word of a text that has no more and no fewer.
fn only(text: &[u8]) -> Option<&[u8]>
    ensures { option_map (λ word. word.now) result ≡ only (words_of text.now) }
{
    let (word, rest) = first_word(text)?;
    match first_word(rest) {
        None => Some(word),
        Some(_) => None,
    }
}

/// The two words of a text that has no more and no fewer.
fn two(text: &[u8]) -> Option<(&[u8], &[u8])>
    ensures { option_map (λ words. (words.0.now, words.1.now)) result ≡ two (words_of text.now) }
{
    let (first, rest) = first_word(text)?;
    let second = only(rest)?;
    Some((first, second))
}

/// The three words of a text that has no more and no fewer.
fn three(text: &[u8]) -> Option<(&[u8], &[u8], &[u8])>
    ensures { option_map (λ words. (words.0.now, words.1.now, words.2.now)) result ≡ three (words_of text.now) }
{
    let (first, rest) = first_word(text)?;
    let (second, third) = two(rest)?;
    Some((first, second, third))
}

/// The first three words of a text, and what follows them.
fn first_three(text: &[u8]) -> Option<(&[u8], &[u8], &[u8], &[u8])>
    ensures { option_map (λ words. (words.0.now, words.1.now, words.2.now, words_of words.3.now)) result
        ≡ first_three (words_of text.now) }
{
    let (first, rest) = first_word(text)?;
    let (second, rest) = first_word(rest)?;
    let (third, rest) = first_word(rest)?;
    Some((first, second, third, rest))
}
