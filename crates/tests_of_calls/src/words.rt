//! What the words of a call ask for.
use call_words::{Command, read_words};
use std::alloc::{AllocError, Global};
use std::test::Fail;

/// A command's name, its words and its number: of `link` the first object and the last, and how many there are.
type Parts<'a> = (&'static str, &'a str, &'a str, u32);

static READ: [(&[&str], Parts<'static>); 18] = [
    (&["diff", "a.o", "b.o"], ("diff", "a.o", "b.o", 0)),
    (&["code", "image", "f"], ("code", "image", "f", 0)),
    (&["match", "image", "a.o"], ("match", "image", "a.o", 0)),
    (&["run", "image", "script"], ("run", "image", "script", 0)),
    (&["gen", "0"], ("gen", "", "", 0)),
    (&["gen", "0000000007"], ("gen", "", "", 7)),
    (&["gen", "4294967295"], ("gen", "", "", 4_294_967_295)),
    (&["link", "a.o"], ("link", "a.o", "a.o", 1)),
    (&["link", "a.o", "b.o"], ("link", "a.o", "b.o", 2)),
    (&["link", "a.o", "a.o", "a.o"], ("link", "a.o", "a.o", 3)),
    (&["link", "", "", "link", "help"], ("link", "", "help", 4)),
    (
        &[
            "link", "a", "b", "c", "d", "e", "f", "g", "h", "i", "j", "k", "l", "m", "n", "o", "p",
        ],
        ("link", "a", "p", 16),
    ),
    (&["diff", "a.o", "a.o"], ("diff", "a.o", "a.o", 0)),
    (&["diff", "", ""], ("diff", "", "", 0)),
    (&["diff", "help", "diff"], ("diff", "help", "diff", 0)),
    (&["run", "a-b", "="], ("run", "a-b", "=", 0)),
    (&["code", "ä", "a b"], ("code", "ä", "a b", 0)),
    (&["match", "+5", "?"], ("match", "+5", "?", 0)),
];

static UNREAD: [&[&str]; 40] = [
    &[],
    &[""],
    &["diff"],
    &["diff", "a"],
    &["diff", "a", "b", "c"],
    &["diff", "a", "b", "c", "d", "e"],
    &["code", "image"],
    &["match", "image", "a", "b"],
    &["run"],
    &["gen"],
    &["gen", "1", "2"],
    &["link"],
    &[
        "link", "a", "b", "c", "d", "e", "f", "g", "h", "i", "j", "k", "l", "m", "n", "o", "p", "q",
    ],
    &["link", "-"],
    &["link", "a", "--", "b"],
    &["link", "a", "b", "-o"],
    &["a", "link"],
    &["help"],
    &["help", "diff"],
    &["help", "a", "b"],
    &["diff", "help"],
    &["gen", "help"],
    &["Diff", "a", "b"],
    &["dif", "a", "b"],
    &["", "a", "b"],
    &["a", "diff", "b"],
    &["ksplice", "diff", "a", "b"],
    &["--help"],
    &["-h"],
    &["--version"],
    &["--", "diff", "a", "b"],
    &["diff", "--", "a", "b"],
    &["diff", "a", "--"],
    &["diff", "-", "b"],
    &["gen", "-1"],
    &["gen", "+5"],
    &["gen", ""],
    &["gen", "0x1"],
    &["gen", "4294967296"],
    &["gen", "00000000001"],
];

fn parts_of<'a>(command: Command<'a>) -> Parts<'a> {
    match command {
        Command::Diff { pre, post } => ("diff", pre, post, 0),
        Command::Code { image, name } => ("code", image, name, 0),
        Command::Match { image, pre } => ("match", image, pre, 0),
        Command::Run { image, script } => ("run", image, script, 0),
        Command::Gen { number } => ("gen", "", "", number),
        Command::Link { objects } => link_parts_of(objects),
    }
}

fn link_parts_of(objects: &[String]) -> Parts<'_> {
    let count = u32::try_from(objects.len()).unwrap_or(0);
    match objects {
        [] => ("link", "", "", count),
        [only] => ("link", only.as_str(), only.as_str(), count),
        [first, .., last] => ("link", first.as_str(), last.as_str(), count),
    }
}

/// Whether words are read as these parts, or have no reading.
fn is_read_as(
    alloc: Global,
    words: &[&str],
    wanted: Option<Parts<'static>>,
) -> Result<bool, AllocError> {
    let mut all = Vec::new(alloc);
    for word in words {
        all.push(String::from_str(alloc, word)?)?;
    }
    Ok(match (read_words(alloc, all.as_slice())?, wanted) {
        (Some(command), Some(parts)) => parts_of(command) == parts,
        (read, wanted) => read.is_none() && wanted.is_none(),
    })
}

#[test]
fn words_are_read(rt: HostRuntime) -> Result<(), Fail> {
    for (words, parts) in READ {
        assert!(rt; is_read_as(rt.alloc(), words, Some(parts))?, "{words:?}");
    }
    for words in UNREAD {
        assert!(rt; is_read_as(rt.alloc(), words, None)?, "{words:?}");
    }
    Ok(())
}
