//! A work, and what is made on the way to it.
use ks_base::Bytes;

/// A program, two objects between which it is updated, and a script that runs and updates it.
#[derive(Drop)]
pub struct Work {
    /// The image file of the program.
    pub image: Bytes,
    /// The object file before the change.
    pub pre: Bytes,
    /// The object file after it.
    pub post: Bytes,
    /// The script.
    pub script: Bytes,
}

/// Before the update, or after it.
#[derive(Clone, Copy)]
pub(crate) enum Version {
    Old,
    New,
}

/// A build of the program of a work.
#[derive(Clone, Copy)]
pub(crate) struct Build {
    /// the number of the work
    pub(crate) number: u32,
    pub(crate) version: Version,
}

/// A section of an object file: its bytes, and what its header says beside their place (System V gABI, chapter 4,
/// "Sections").
#[derive(Drop)]
pub struct Section {
    /// Its name.
    pub name: Bytes,
    /// `sh_type`.
    pub kind: usize,
    /// `sh_flags`.
    pub flags: usize,
    /// `sh_link`.
    pub link: usize,
    /// `sh_info`.
    pub info: usize,
    /// `sh_addralign`.
    pub alignment: usize,
    /// `sh_entsize`.
    pub entry_size: usize,
    /// Its bytes.
    pub content: Bytes,
}

/// An object file in the making: the headers, the contents and the names of its sections so far.
#[derive(Drop)]
pub(crate) struct Draft {
    pub(crate) header_bytes: Vec<u8>,
    pub(crate) content_bytes: Vec<u8>,
    pub(crate) name_bytes: Vec<u8>,
}
