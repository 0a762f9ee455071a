//! Makes objects for tests, of sections, functions and references: the file's header, the section headers, and then the
//! contents, with relocations, symbols and names after the given sections. What is referred to and is no section is a
//! name that the object doesn't define.
#![tactic(auto)]

use std::alloc::{AllocError, Global};

/// What a section holds. Code is one function of this name: a global one, or a local one as a cold part is.
#[derive(Clone, Copy)]
pub enum Kind {
    /// A function that other objects may refer to.
    Global(&'static str),
    /// A function of this object alone.
    Local(&'static str),
    /// Data that the program reads.
    ReadOnly,
    /// Texts, each with a zero after it.
    Strings,
    /// Data that the program may change.
    Data,
    /// As many zeros as there are bytes, none of which stands in the file.
    Zeros,
    /// What no program has in its memory.
    Comment,
}

/// A section. In its bytes the addends stand in the fields. A reference is its offset, its type, and the section or the
/// outside name that it goes to.
#[derive(Clone, Copy)]
pub struct Section {
    /// The section's name.
    pub name: &'static str,
    /// What it holds.
    pub kind: Kind,
    /// Its bytes.
    pub bytes: &'static [u8],
    /// Its references.
    pub references: &'static [(u32, u32, &'static str)],
}

/// The type of a reference that is an address, `R_386_32`.
pub const ABSOLUTE: u32 = 1;

/// The type of a reference that is a distance from its field, `R_386_PC32`.
pub const RELATIVE: u32 = 2;

const FILE_HEADER: usize = 52;

const SECTION_HEADER: usize = 40;

const SYMBOL: usize = 16;

const PROGBITS: u32 = 1;

const SYMTAB: u32 = 2;

const STRTAB: u32 = 3;

const NOBITS: u32 = 8;

const REL: u32 = 9;

const WRITE: u32 = 1;

const ALLOC: u32 = 2;

const EXECINSTR: u32 = 4;

const MERGE_STRINGS: u32 = 0x30;

const LOCAL_SECTION: u32 = 0x03;

const LOCAL_FUNCTION: u32 = 0x02;

const GLOBAL_FUNCTION: u32 = 0x12;

const GLOBAL_WITHOUT_TYPE: u32 = 0x10;

const UNDEFINED: usize = 0;

/// The type of a section, its flags, and the size of its entries.
fn form_of(kind: Kind) -> (u32, u32, u32) {
    match kind {
        Kind::Global(_) | Kind::Local(_) => (PROGBITS, ALLOC | EXECINSTR, 0),
        Kind::ReadOnly => (PROGBITS, ALLOC, 0),
        Kind::Strings => (PROGBITS, ALLOC | MERGE_STRINGS, 1),
        Kind::Data => (PROGBITS, WRITE | ALLOC, 0),
        Kind::Zeros => (NOBITS, WRITE | ALLOC, 0),
        Kind::Comment => (PROGBITS, 0, 0),
    }
}

fn word(n: usize) -> u32 {
    u32::try_from(n).unwrap_or(u32::MAX)
}

fn put(to: &mut Vec<u8>, words: &[u32]) -> Result<(), AllocError> {
    for word in words {
        to.extend_from_slice(&word.to_le_bytes())?;
    }
    Ok(())
}

/// Adds the names among some references that no section has, each once.
fn add_outside(
    names: &mut Vec<&'static str>,
    sections: &[Section],
    references: &[(u32, u32, &'static str)],
) -> Result<(), AllocError> {
    for (_, _, target) in references {
        let section = sections.iter().position(|section| section.name == *target);
        let before = names.iter().position(|name| *name == *target);
        if section.is_none() && before.is_none() {
            names.push(*target)?;
        }
    }
    Ok(())
}

/// The names that are referred to and that no section has.
fn outside_names(alloc: Global, sections: &[Section]) -> Result<Vec<&'static str>, AllocError> {
    let mut names = Vec::new(alloc);
    for section in sections {
        add_outside(&mut names, sections, section.references)?;
    }
    Ok(names)
}

/// What references go to, as the object's symbols.
#[derive(Drop)]
struct Targets<'s> {
    /// the object's sections, whose symbols come first
    sections: &'s [Section],
    /// the names that no section has
    outside: Vec<&'static str>,
    /// the index of the first such name's symbol
    first: u32,
}

impl<'s> Targets<'s> {
    /// The index of the symbol of a section or of an outside name.
    fn index_of(&self, name: &str) -> u32 {
        if let Some(i) = self
            .sections
            .iter()
            .position(|section| section.name == name)
        {
            return word(i).wrapping_add(1);
        }
        match self.outside.iter().position(|other| *other == name) {
            Some(i) => word(i).wrapping_add(self.first),
            None => 0,
        }
    }

    /// The relocation entries of some references.
    fn entries(
        &self,
        alloc: Global,
        references: &[(u32, u32, &'static str)],
    ) -> Result<Vec<u8>, AllocError> {
        let mut entries = Vec::new(alloc);
        for (offset, form, target) in references {
            let symbol = self.index_of(target);
            put(&mut entries, &[*offset, symbol.wrapping_mul(0x100) | *form])?;
        }
        Ok(entries)
    }
}

/// How many sections the object of some has: these and the one without content, the relocations of each that refers to
/// something, and the tables of symbols and names.
fn section_count(sections: &[Section]) -> usize {
    let referring = sections
        .iter()
        .filter(|section| !section.references.is_empty())
        .count();
    sections.len().wrapping_add(referring).wrapping_add(3)
}

/// The parts of an object in the making.
#[derive(Drop)]
struct Draft {
    /// how many sections it is to have; the last two are the tables of symbols and of names
    count: usize,
    headers: Vec<u8>,
    contents: Vec<u8>,
    names: Vec<u8>,
    symbols: Vec<u8>,
}

impl Draft {
    /// Of an object of so many sections: the section and the symbol without content.
    fn new(alloc: Global, count: usize) -> Result<Self, AllocError> {
        let mut draft = Draft {
            count,
            headers: Vec::new(alloc),
            contents: Vec::new(alloc),
            names: Vec::new(alloc),
            symbols: Vec::new(alloc),
        };
        let none = draft.name("")?;
        draft.section(none, (0, 0, 0), (0, 0), &[])?;
        draft.symbol(none, 0, UNDEFINED)?;
        Ok(draft)
    }

    /// The index of the table of names.
    fn names_index(&self) -> u32 {
        word(self.count).wrapping_sub(1)
    }

    /// The index of the table of symbols.
    fn symbols_index(&self) -> u32 {
        word(self.count).wrapping_sub(2)
    }

    /// How many symbols it has so far.
    fn symbol_count(&self) -> u32 {
        word(self.symbols.len() / SYMBOL)
    }

    /// The offset of a name, which is put after the others.
    fn name(&mut self, name: &str) -> Result<u32, AllocError> {
        let offset = word(self.names.len());
        self.names.extend_from_slice(name.as_bytes())?;
        self.names.push(0)?;
        Ok(offset)
    }

    /// Puts a section of a name, a type with flags and a size of entries, and a link with an info.
    fn section(
        &mut self,
        name: u32,
        form: (u32, u32, u32),
        refers: (u32, u32),
        content: &[u8],
    ) -> Result<(), AllocError> {
        let (kind, flags, entry) = form;
        let (link, info) = refers;
        let start = self
            .count
            .wrapping_mul(SECTION_HEADER)
            .wrapping_add(FILE_HEADER);
        let offset = word(start.wrapping_add(self.contents.len()));
        let size = word(content.len());
        put(
            &mut self.headers,
            &[name, kind, flags, 0, offset, size, link, info, 1, entry],
        )?;
        self.contents.extend_from_slice(content)
    }

    /// Puts a symbol at the start of a section.
    fn symbol(&mut self, name: u32, info: u32, section: usize) -> Result<(), AllocError> {
        put(
            &mut self.symbols,
            &[name, 0, 0, word(section).wrapping_mul(0x10000) | info],
        )
    }

    /// Puts sections, each with its symbol.
    fn put_sections(&mut self, sections: &[Section]) -> Result<(), AllocError> {
        for (i, section) in sections.iter().enumerate() {
            let name = self.name(section.name)?;
            self.section(name, form_of(section.kind), (0, 0), section.bytes)?;
            self.symbol(0, LOCAL_SECTION, i.wrapping_add(1))?;
        }
        Ok(())
    }

    /// Puts the symbols of the functions of this object alone.
    fn put_locals(&mut self, sections: &[Section]) -> Result<(), AllocError> {
        for (i, section) in sections.iter().enumerate() {
            if let Kind::Local(function) = section.kind {
                let name = self.name(function)?;
                self.symbol(name, LOCAL_FUNCTION, i.wrapping_add(1))?;
            }
        }
        Ok(())
    }

    /// Puts the symbols of the functions that other objects may refer to.
    fn put_globals(&mut self, sections: &[Section]) -> Result<(), AllocError> {
        for (i, section) in sections.iter().enumerate() {
            if let Kind::Global(function) = section.kind {
                let name = self.name(function)?;
                self.symbol(name, GLOBAL_FUNCTION, i.wrapping_add(1))?;
            }
        }
        Ok(())
    }

    /// Puts the symbols of outside names.
    fn put_outside(&mut self, outside: &[&'static str]) -> Result<(), AllocError> {
        for outside in outside {
            let name = self.name(outside)?;
            self.symbol(name, GLOBAL_WITHOUT_TYPE, UNDEFINED)?;
        }
        Ok(())
    }

    /// Puts the relocations of each section that refers to something.
    fn put_relocations(&mut self, alloc: Global, targets: &Targets<'_>) -> Result<(), AllocError> {
        for (i, section) in targets.sections.iter().enumerate() {
            if section.references.is_empty() {
                continue;
            }
            let entries = targets.entries(alloc, section.references)?;
            let name = self.name(".rel")?;
            let refers = (self.symbols_index(), word(i).wrapping_add(1));
            self.section(name, (REL, 0, 8), refers, entries.as_slice())?;
        }
        Ok(())
    }

    /// Puts the tables of symbols, so many of which are local, and of names.
    fn put_tables(&mut self, alloc: Global, locals: u32) -> Result<(), AllocError> {
        let name = self.name(".symtab")?;
        let symbols = self.symbols.as_slice().to_vec(alloc)?;
        let refers = (self.names_index(), locals);
        self.section(name, (SYMTAB, 0, 16), refers, symbols.as_slice())?;
        let name = self.name(".strtab")?;
        let names = self.names.as_slice().to_vec(alloc)?;
        self.section(name, (STRTAB, 0, 0), (0, 0), names.as_slice())
    }

    /// The file: its header, the section headers, and the contents.
    fn file(&self, alloc: Global) -> Result<Vec<u8>, AllocError> {
        let mut file = Vec::new(alloc);
        let indices = self.names_index().wrapping_mul(0x10000) | word(self.count);
        put(
            &mut file,
            &[
                0x464c457f,
                0x10101,
                0,
                0,
                0x30001,
                1,
                0,
                0,
                52,
                0,
                52,
                40 * 0x10000,
                indices,
            ],
        )?;
        file.extend_from_slice(self.headers.as_slice())?;
        file.extend_from_slice(self.contents.as_slice())?;
        Ok(file)
    }
}

/// The object of these sections, as a file. An error comes only if memory runs out.
pub fn object(alloc: Global, sections: &[Section]) -> Result<Vec<u8>, AllocError> {
    let mut draft = Draft::new(alloc, section_count(sections))?;
    draft.put_sections(sections)?;
    draft.put_locals(sections)?;
    let locals = draft.symbol_count();
    draft.put_globals(sections)?;
    let targets = Targets {
        sections,
        outside: outside_names(alloc, sections)?,
        first: draft.symbol_count(),
    };
    draft.put_outside(targets.outside.as_slice())?;
    draft.put_relocations(alloc, &targets)?;
    draft.put_tables(alloc, locals)?;
    draft.file(alloc)
}
