//! An object file of some sections.
ghost use Rattle.std.specs.Prelude.{◌≡◌, ◌++◌, ◌+◌, ◌<◌, ◌^◌, [], length, codes, OnOk, IfOk};
ghost use Rattle.work_gen.specs.Encoding.{ended, padded};
ghost use Rattle.work_gen.specs.ElfFile.{section_header, file_header, string_table, elf_file};
ghost use Rattle.work_gen.specs.inside.Drafts.{IsDraftOf, drafted_file};

use crate::encoding::{put_copies, put_ended, put_halves, put_padded, put_words};
use crate::types::{Draft, Section};
use ks_base::Bytes;
use std::alloc::{AllocError, Global};

/// What an object file begins with: its magic number, 32-bit, little-endian, the version, and zeros.
const IDENTITY: [u8; 16] = [0x7F, 0x45, 0x4C, 0x46, 1, 1, 1, 0, 0, 0, 0, 0, 0, 0, 0, 0];

const RELOCATABLE: usize = 1;

const I386: usize = 3;

const VERSION: usize = 1;

const FILE_HEADER: usize = 52;

const SECTION_HEADER: usize = 40;

const STRTAB: usize = 3;

/// The object file of some sections and the names of all, itself a section.
#[tactic(auto, unfolding(crate::specs::ElfFile::elf_file))]
pub(crate) fn elf_file(alloc: Global, sections: &[Section]) -> Result<Bytes, AllocError>
    ensures { IfOk result (λ file. file ≡ elf_file sections.now) }
{
    let mut draft = draft_of(alloc, sections)?;
    let names = section_names(alloc, draft.name_bytes.as_slice())?;
    draft.add(&names)?;
    draft.file(alloc)
}

/// A section of names.
#[tactic(auto, unfolding(crate::specs::ElfFile::string_table))]
pub(crate) fn string_table(
    alloc: Global,
    name: &[u8],
    names: Vec<u8>,
) -> Result<Section, AllocError>
    ensures { IfOk result (λ section. section ≡ string_table name.now names.items) }
{
    let own = Bytes::from_slice(alloc, name)?;
    Ok(Section {
        name: own,
        kind: STRTAB,
        flags: 0,
        link: 0,
        info: 0,
        alignment: 1,
        entry_size: 0,
        content: Bytes::from_vec(names),
    })
}

/// The section of the sections' names, of which those before its own are given.
#[tactic(auto, using(crate::proofs::AppendLaws::append_laws))]
fn section_names(alloc: Global, names: &[u8]) -> Result<Section, AllocError>
    ensures { IfOk result (λ section. section ≡ string_table (codes ".shstrtab") (names.now ++ ended (codes ".shstrtab"))) }
{
    let mut all = Vec::from_slice(alloc, names)?;
    put_ended(&mut all, b".shstrtab")?;
    string_table(alloc, b".shstrtab", all)
}

/// The draft that holds some sections.
fn draft_of(alloc: Global, sections: &[Section]) -> Result<Draft, AllocError>
    ensures { IfOk result (λ draft. IsDraftOf sections.now draft) }
{
    let names = Vec::from_slice(alloc, &[0])?;
    let mut draft = Draft {
        header_bytes: Vec::new(alloc),
        content_bytes: Vec::new(alloc),
        name_bytes: names,
    };
    for section in sections {
        draft.add(section)?;
    }
    Ok(draft)
}

/// Appends the ELF header, where the section header table begins at `place`, and the last section has the index `last`.
#[tactic(auto, using(crate::proofs::AppendLaws::append_laws), unfolding(crate::specs::ElfFile::file_header))]
fn put_file_header(to: &mut Vec<u8>, place: usize, last: usize) -> Result<(), AllocError>
    requires { last < 2 ^ 63 }
    ensures { OnOk result (to.new.items ≡ to.old.items ++ file_header place last) }
{
    to.extend_from_slice(&IDENTITY)?;
    put_halves(to, &[RELOCATABLE, I386])?;
    put_words(to, &[VERSION, 0, 0, place, 0])?;
    put_halves(to, &[FILE_HEADER, 0, 0, SECTION_HEADER, last + 1, last])
}

impl Draft {
    /// Adds a section behind the others.
    #[tactic(auto, unfolding(crate::specs::ElfFile::section_header))]
    fn add(&mut self, section: &Section) -> Result<(), AllocError>
        ensures headers { OnOk result (self.new.header_bytes.items ≡ self.old.header_bytes.items
            ++ section_header (52 + length self.old.content_bytes.items) (length self.old.name_bytes.items) section.now) }
        ensures contents { OnOk result
            (self.new.content_bytes.items ≡ self.old.content_bytes.items ++ padded section.now.content) }
        ensures names { OnOk result
            (self.new.name_bytes.items ≡ self.old.name_bytes.items ++ ended section.now.name) }
    {
        let place = FILE_HEADER + self.content_bytes.len();
        let name = self.name_bytes.len();
        let size = section.content.len();
        put_words(
            &mut self.header_bytes,
            &[
                name,
                section.kind,
                section.flags,
                0,
                place,
                size,
                section.link,
                section.info,
                section.alignment,
                section.entry_size,
            ],
        )?;
        put_padded(&mut self.content_bytes, section.content.as_slice())?;
        put_ended(&mut self.name_bytes, section.name.as_slice())
    }

    /// The file of the sections so far, the last of which has their names.
    #[tactic(auto, using(crate::proofs::AppendLaws::append_laws), unfolding(crate::specs::inside::Drafts::drafted_file))]
    fn file(&self, alloc: Global) -> Result<Bytes, AllocError>
        ensures { IfOk result (λ file. file ≡ drafted_file self.now) }
    {
        let place = FILE_HEADER + self.content_bytes.len();
        let last = self.header_bytes.len() / SECTION_HEADER;
        let mut file = Vec::new(alloc);
        put_file_header(&mut file, place, last)?;
        file.extend_from_slice(self.content_bytes.as_slice())?;
        put_copies(&mut file, 0, SECTION_HEADER)?;
        file.extend_from_slice(self.header_bytes.as_slice())?;
        Ok(Bytes::from_vec(file))
    }
}
