//! The commands of the program.

/// What a call asks for.
#[derive(Clone, Copy)]
pub enum Command<'a> {
    /// `diff PRE POST`: the difference between two object files, by their names.
    Diff { pre: &'a str, post: &'a str },
    /// `code IMAGE NAME`: the instructions of one function of an image, by the names of both.
    Code { image: &'a str, name: &'a str },
    /// `match IMAGE PRE`: which functions of an image the code of an object file is, by the names of both.
    Match { image: &'a str, pre: &'a str },
    /// `run IMAGE SCRIPT`: a session, by the names of the image and of the script.
    Run { image: &'a str, script: &'a str },
    /// `gen NUMBER`: the work that is made from a number.
    Gen { number: u32 },
    /// `link OBJECT...`: the image that one to sixteen object files are linked to, by their names.
    Link { objects: &'a [String] },
}
