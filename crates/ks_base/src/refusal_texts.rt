//! The number and the text of each refusal, in one table, and the line of a refusal.
ghost use Rattle.std.specs.Prelude.{◌≡◌, ◌++◌, OnOk};
ghost use Rattle.ks_base.specs.Refusals.{large_word, link_word, image_word, fault_word};
ghost use Rattle.ks_base.specs.Refusals.{refusal_number, refusal_text, refusal_line};
ghost use Rattle.ks_base.specs.inside.Fields.{fields_text};

use crate::fields::{Fields, put_fields};
use crate::refusals::{Fault, ImageFault, Large, LinkLimit, Refusal};
use crate::reply::Line;
use std::alloc::AllocError;

impl Large {
    fn word(self) -> &'static str
        ensures { result.now ≡ large_word self }
    {
        match self {
            Large::Bytes => "bytes",
            Large::Sections => "sections",
            Large::Symbols => "symbols",
            Large::Relocations => "relocations",
            Large::Name => "name",
            Large::Content => "content",
        }
    }
}

impl LinkLimit {
    fn word(self) -> &'static str
        ensures { result.now ≡ link_word self }
    {
        match self {
            LinkLimit::Bytes => "bytes",
            LinkLimit::Symbols => "symbols",
        }
    }
}

impl ImageFault {
    fn word(self) -> &'static str
        ensures { result.now ≡ image_word self }
    {
        match self {
            ImageFault::Short => "short",
            ImageFault::Magic => "magic",
            ImageFault::Limit => "limit",
            ImageFault::Kind => "kind",
            ImageFault::Range => "range",
            ImageFault::Order => "order",
            ImageFault::Name => "name",
            ImageFault::Trailing => "trailing",
        }
    }
}

impl Fault {
    /// The word that a reply has for the fault.
    pub fn word(self) -> &'static str
        ensures { result.now ≡ fault_word self }
    {
        match self {
            Fault::Stray => "stray",
            Fault::Unmapped => "unmapped",
            Fault::CodeAccess => "code-access",
            Fault::ReadOnlyWrite => "read-only-write",
            Fault::Undecoded => "undecoded",
            Fault::Unsupported => "unsupported",
            Fault::Divide => "divide",
            Fault::Trap => "trap",
            Fault::BadLock => "bad-lock",
        }
    }
}

/// What is written of a refusal: its number, the words that its text begins with, and its fields.
#[tactic(auto, unfolding(crate::specs::Refusals::refusal_number, crate::specs::Refusals::refusal_text))]
fn row_of(refusal: &Refusal) -> (u8, &'static str, Fields<'_>)
    ensures number { result.0 ≡ refusal_number refusal.now }
    ensures text { result.1.now ++ fields_text result.2 ≡ refusal_text refusal.now }
{
    match refusal {
        Refusal::NotElf => (1, "not elf", Fields::Nothing),
        Refusal::NotRel386 => (2, "not i386 relocatable", Fields::Nothing),
        Refusal::BadHeader(offset) => (3, "bad header ", Fields::Number(*offset)),
        Refusal::BadSection(index) => (4, "bad section ", Fields::Number(*index)),
        Refusal::BadSymbol(index) => (5, "bad symbol ", Fields::Number(*index)),
        Refusal::BadReloc { section, entry } => {
            (6, "bad relocation ", Fields::Numbers(*section, *entry))
        }
        Refusal::UnknownReloc {
            section,
            entry,
            kind,
        } => (
            7,
            "unknown relocation ",
            Fields::NameAndNumbers(section, *entry, u32::from(*kind)),
        ),
        Refusal::NotOneFunction(section) => (8, "not one function ", Fields::Name(section)),
        Refusal::DoubleName(section) => (9, "double name ", Fields::Name(section)),
        Refusal::TooLarge(what) => (10, "too large ", Fields::Word(what.word())),
        Refusal::DataChanged(section) => (11, "data changed ", Fields::Name(section)),
        Refusal::NoChange => (12, "no change", Fields::Nothing),
        Refusal::Interior(section, offset) => {
            (13, "interior ", Fields::NameAndOffset(section, *offset))
        }
        Refusal::NoCandidate(name) => (14, "no candidate ", Fields::Name(name)),
        Refusal::Mismatch(section, difference) => {
            (15, "", Fields::Difference(section, *difference))
        }
        Refusal::Ambiguous {
            section,
            first,
            second,
        } => (
            16,
            "ambiguous ",
            Fields::NameAndAddresses(section, *first, *second),
        ),
        Refusal::Conflict {
            unknown,
            value,
            other_value,
            place,
            other_place,
        } => (
            17,
            "",
            Fields::Values(unknown, *value, *other_value, place, other_place),
        ),
        Refusal::Unresolved(name) => (18, "unresolved ", Fields::Name(name)),
        Refusal::TwoNames {
            name,
            first,
            second,
        } => (
            19,
            "two names ",
            Fields::NameAndAddresses(name, *first, *second),
        ),
        Refusal::PreUndecoded(section, offset) => (
            20,
            "pre undecoded ",
            Fields::NameAndOffset(section, *offset),
        ),
        Refusal::TooSmall(section, room) => {
            (21, "too small ", Fields::NameAndRoom(section, *room))
        }
        Refusal::Overlap { retired, other } => {
            (22, "overlap ", Fields::Addresses(*retired, *other))
        }
        Refusal::NoRoom(bytes) => (23, "no room ", Fields::Number(*bytes)),
        Refusal::TooMany => (24, "too many updates", Fields::Nothing),
        Refusal::Busy(standing) => (25, "", Fields::Standing(*standing)),
        Refusal::StackOut { thread, esp } => (
            26,
            "stack out thread ",
            Fields::NumberAndAddress(*thread, *esp),
        ),
        Refusal::NothingApplied => (27, "nothing applied", Fields::Nothing),
        Refusal::BadImage(offset, fault) => (
            28,
            "bad image at ",
            Fields::NumberAndWord(*offset, fault.word()),
        ),
        Refusal::BadLine(number) => (29, "bad line ", Fields::Number(*number)),
        Refusal::NoThread(thread) => (30, "no thread ", Fields::Number(*thread)),
        Refusal::NoSymbol(name) => (31, "no symbol ", Fields::Name(name)),
        Refusal::NoStack => (32, "no stack", Fields::Nothing),
        Refusal::Covered(name) => (33, "covered ", Fields::Name(name)),
        Refusal::Needed {
            update,
            section,
            offset,
        } => (
            34,
            "needed ",
            Fields::NameAndField(update, section, *offset),
        ),
        Refusal::BadString(section, index) => {
            (35, "bad string ", Fields::NameAndNumber(section, *index))
        }
        Refusal::BadTarget(section, index) => {
            (36, "bad target ", Fields::NameAndNumber(section, *index))
        }
        Refusal::TooManyThreads => (37, "too many threads", Fields::Nothing),
        Refusal::NameTaken(name) => (38, "name taken ", Fields::Name(name)),
        Refusal::NoUpdate(name) => (39, "no update ", Fields::Name(name)),
        Refusal::DoubleGlobal(name) => (40, "double global ", Fields::Name(name)),
        Refusal::Undefined(name) => (41, "undefined ", Fields::Name(name)),
        Refusal::LinkTooLarge(what) => (42, "link too large ", Fields::Word(what.word())),
        Refusal::PokeOpen(name) => (43, "poke open ", Fields::Name(name)),
        Refusal::NoPoke => (44, "no poke", Fields::Nothing),
        Refusal::NotOneChanged => (45, "not one changed", Fields::Nothing),
        Refusal::HookFault {
            function,
            fault,
            pc,
        } => (
            46,
            "hook ",
            Fields::NameAndFault(function, fault.word(), *pc),
        ),
        Refusal::HookBudget(name) => (47, "hook budget ", Fields::Name(name)),
        Refusal::BadHooks(offset) => (48, "bad hooks ", Fields::Offset(*offset)),
        Refusal::Memory => (0, "", Fields::Nothing),
    }
}

impl Refusal {
    /// The number that is printed for the refusal, 0 for [`Refusal::Memory`], which is not printed.
    pub fn number(&self) -> u8
        ensures { result ≡ refusal_number self.now }
    {
        row_of(self).0
    }
}

fn put_refusal_text(line: &mut Line, words: &str, fields: Fields<'_>) -> Result<(), AllocError>
    ensures { OnOk result (line.new ≡ line.old ++ words.now ++ fields_text fields.entry) }
{
    line.put_text(words)?;
    put_fields(line, fields)
}

/// Appends the line of a refusal, and nothing for [`Refusal::Memory`]. If memory runs out while it is written, some of
/// it may stand in the line.
#[tactic(auto, unfolding(crate::specs::Refusals::refusal_line))]
pub(crate) fn write_refusal(line: &mut Line, refusal: &Refusal) -> Result<(), AllocError>
    ensures { OnOk result (line.new ≡ line.old ++ refusal_line refusal.now) }
{
    let (number, words, fields) = row_of(refusal);
    if number == 0 {
        return Ok(());
    }
    line.put_text("refused ")?;
    line.put_number(u64::from(number))?;
    line.put_text(" ")?;
    put_refusal_text(line, words, fields)?;
    line.put_text("\n")
}
