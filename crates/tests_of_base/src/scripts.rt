//! A script with a line of each kind, and a line that is none.
use ks_base::{Name, Refusal};
use script_lines::{Command, read_script};
use std::alloc::Global;
use std::test::Fail;

/// Remarks and blanks, numbers as they may be written, and each command.
const TEXT: &str = "# a session
spawn main 0x10
threads

  rr 2 100
step 1 5
peek 0x2000 4
apply fix old.o new.o
apply fix a b tries 0x3E8 gap 16777
undo
undo fix
list
watch
poke fix old.o new.o
tail
seal
hooks fix old.o new.o";

/// The numbers of a command, of `apply` with its tries and its gap.
fn numbers_of(command: &Command) -> (u32, u32, u32) {
    match command {
        Command::Spawn { argument, .. } => (1, *argument, 0),
        Command::Step { thread, steps } => (2, *thread, *steps),
        Command::RoundRobin { quantum, steps } => (3, *quantum, *steps),
        Command::Threads => (4, 0, 0),
        Command::Peek { address, count } => (5, *address, *count),
        Command::Apply { tries, gap, .. } => (6, *tries, *gap),
        Command::Undo => (7, 0, 0),
        Command::UndoNamed { .. } => (8, 0, 0),
        Command::ListUpdates => (9, 0, 0),
        Command::Watch => (10, 0, 0),
        Command::Poke { .. } => (11, 0, 0),
        Command::Tail => (12, 0, 0),
        Command::Seal => (13, 0, 0),
        Command::Hooks { .. } => (14, 0, 0),
    }
}

const NUMBERS: [(u32, u32, u32); 15] = [
    (1, 16, 0),
    (4, 0, 0),
    (3, 2, 100),
    (2, 1, 5),
    (5, 0x2000, 4),
    (6, 1, 0),
    (6, 1000, 16_777),
    (7, 0, 0),
    (8, 0, 0),
    (9, 0, 0),
    (10, 0, 0),
    (11, 0, 0),
    (12, 0, 0),
    (13, 0, 0),
    (14, 0, 0),
];

fn is_name(name: &Name, text: &str) -> bool {
    name.as_slice() == text.as_bytes()
}

/// Whether the names of a command, where it has some, are `main`, or `fix` and two others.
fn has_names(command: &Command, others: (&str, &str)) -> bool {
    match command {
        Command::Spawn { name, .. } => is_name(name, "main"),
        Command::Apply {
            name,
            pre,
            post,
            ..
        }
        | Command::Hooks { name, pre, post }
        | Command::Poke { name, pre, post } => is_name(name, "fix")
            && is_name(pre, others.0)
            && is_name(post, others.1),
        Command::UndoNamed { name } => is_name(name, "fix"),
        _ => true,
    }
}

/// Whether the commands are those of the text.
fn are_wanted(commands: &[Command]) -> bool {
    commands.len() == NUMBERS.len()
        && commands.iter().zip(NUMBERS.iter()).all(|(command, wanted)| {
            let long = *wanted == (6, 1000, 16_777);
            let others = if long { ("a", "b") } else { ("old.o", "new.o") };
            numbers_of(command) == *wanted && has_names(command, others)
        })
}

/// The number of the first bad line, where there is one.
fn bad_line(alloc: Global, text: &str) -> Option<u32> {
    match read_script(alloc, text.as_bytes()) {
        Err(Refusal::BadLine(number)) => Some(number),
        _ => None,
    }
}

#[test]
fn lines_of_a_script(rt: HostRuntime) -> Result<(), Fail> {
    let script = read_script(rt.alloc(), TEXT.as_bytes())
        .ok()
        .ok_or("refused")?;
    assert!(rt; are_wanted(script.as_slice()) && script.len() == NUMBERS.len());
    assert!(rt; bad_line(rt.alloc(), "threads\n\n\r\n# \t\n") == Some(3));
    assert!(rt; bad_line(rt.alloc(), "undo u1\nundo u1 u2\n") == Some(2));
    assert!(rt; bad_line(rt.alloc(), "poke u1 a b\npoke u1 a b tries 1 gap 0\n") == Some(2));
    assert!(rt; bad_line(rt.alloc(), "hooks u1 a b\nhooks u1 a\n") == Some(2));
    assert!(rt; bad_line(rt.alloc(), "seal\ntail u1\n") == Some(2));
    Ok(())
}
