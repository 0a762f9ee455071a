//! Why a request is refused.
use crate::places::{Name, Spot};
use std::alloc::AllocError;
use std::fmt;

/// Why a thread stops.
#[derive(Clone, Copy, PartialEq, Eq, Debug)]
pub enum Fault {
    /// The code there was retired.
    Stray,
    /// No piece holds the address; of a fetch, no code piece.
    Unmapped,
    /// Code was read or written as data.
    CodeAccess,
    /// A read-only piece was written.
    ReadOnlyWrite,
    /// The bytes are no instruction.
    Undecoded,
    /// The instruction is known and isn't carried out.
    Unsupported,
    /// A division by zero, or one whose quotient doesn't fit.
    Divide,
    /// A breakpoint or another instruction that traps.
    Trap,
    /// A LOCK prefix where none may stand.
    BadLock,
}

/// Which limit of an object is passed.
#[derive(Clone, Copy, PartialEq, Eq)]
pub enum Large {
    /// The file has more bytes than an object may have.
    Bytes,
    /// It has too many sections.
    Sections,
    /// It has too many symbols.
    Symbols,
    /// It has too many relocations.
    Relocations,
    /// A name is too long.
    Name,
    /// The loaded sections' sizes sum to too much.
    Content,
}

/// Which limit of a linked image is passed.
#[derive(Clone, Copy, PartialEq, Eq)]
pub enum LinkLimit {
    /// The lengths of its regions sum to too much.
    Bytes,
    /// It has too many symbols.
    Symbols,
}

/// In what the pre code and the running code differ first.
#[derive(Clone, Copy, PartialEq, Eq)]
pub enum DifferenceKind {
    /// The running code ends: no window, or a spliced home.
    End,
    /// The running bytes don't decode.
    Undecoded,
    /// Prefixes, opcodes, or kinds of branch.
    Opcode,
    /// Another byte of the instruction, or its length.
    Operand,
    /// Where a branch goes.
    Target,
    /// The value that a referenced field gives.
    Value,
    /// What stands at the value.
    Content,
}

/// The first difference between a pre section and the running code.
#[derive(Clone, Copy, PartialEq, Eq)]
pub struct Difference {
    /// The number of the instruction, counted from 0 without padding.
    pub index: u32,
    /// The offset of the pre instruction in its section, in bytes.
    pub pre_offset: u32,
    /// The address of the running instruction.
    pub run_address: u32,
    /// In what they differ.
    pub kind: DifferenceKind,
}

/// Where a thread has an address of a range.
#[derive(Clone, Copy, PartialEq, Eq)]
pub enum Place {
    /// The program counter.
    Pc,
    /// The general register of this number, 0 to 7 for EAX, ECX, EDX, EBX, ESP, EBP, ESI and EDI.
    Register(u8),
    /// The dword of the stack at this address.
    Stack(u32),
}

/// That a thread stands in a range.
#[derive(Clone, Copy, PartialEq, Eq)]
pub struct Standing {
    /// The thread's number.
    pub thread: u32,
    /// Where it has the address.
    pub place: Place,
    /// The address of the range that it has there.
    pub value: u32,
}

/// Which rule an image breaks.
#[derive(Clone, Copy, PartialEq, Eq)]
pub enum ImageFault {
    /// The file ends inside a field or its bytes.
    Short,
    /// The first four bytes aren't the format's.
    Magic,
    /// A count, a length or a sum is above its limit, or a region has no byte.
    Limit,
    /// A kind or a binding that isn't listed.
    Kind,
    /// Bounds, an alignment, or an address outside its region.
    Range,
    /// Regions or stacks don't ascend, or two of regions, stacks and the arena meet.
    Order,
    /// An empty name, or a zero byte in one.
    Name,
    /// A byte after the last stack.
    Trailing,
}

/// What two candidates give two values: a section or an outside name, or an offset of a section.
#[derive(Drop)]
pub struct ConflictName {
    /// The section's or the outside name.
    pub name: Name,
    /// The offset in the section, in bytes, where the conflict is about an interior reference.
    pub offset: Option<u32>,
}

/// Why a request is refused. Each has a number and a text; for [`Refusal::Memory`] no reply is written. Nothing is
/// refused with 46 to 48 yet: they are for a call that is still to be written.
#[derive(Drop)]
pub enum Refusal {
    /// 1: the object doesn't begin with the ELF magic.
    NotElf,
    /// 2: the object isn't a relocatable one for i386.
    NotRel386,
    /// 3: the header field at this offset is wrong; or the file ends in the header, and this is its length.
    BadHeader(u32),
    /// 4: the section of this index is wrong.
    BadSection(u32),
    /// 5: the symbol of this index is wrong.
    BadSymbol(u32),
    /// 6: an entry of a relocation section is wrong.
    BadReloc {
        /// The index of the relocation section.
        section: u32,
        /// The index of the entry in it.
        entry: u32,
    },
    /// 7: a relocation has a type that isn't accepted in its section, or not with its symbol.
    UnknownReloc {
        /// The section that the relocation changes.
        section: Name,
        /// The index of the entry in the relocation section.
        entry: u32,
        /// The relocation's type.
        kind: u8,
    },
    /// 8: a code section has no function symbol at 0, or one above 0.
    NotOneFunction(Name),
    /// 9: a loaded section has the name of an earlier one.
    DoubleName(Name),
    /// 10: a limit of the object is passed.
    TooLarge(Large),
    /// 11: a section of both objects has another class in the second; or it is data that the program may change, and
    /// differs, or reaches read-only data that differ.
    DataChanged(Name),
    /// 12: no function of the two objects differs, and none is added.
    NoChange,
    /// 13: the reference at this offset of a section goes to the interior of a function and can't be kept.
    Interior(Name, u32),
    /// 14: no function of the name is in use in the running program.
    NoCandidate(Name),
    /// 15: no candidate of a section matches; the first difference of the lowest.
    Mismatch(Name, Difference),
    /// 16: several candidates of a section are left.
    Ambiguous {
        /// The section.
        section: Name,
        /// The home of the lowest.
        first: u32,
        /// The home of the next.
        second: u32,
    },
    /// 17: two candidates, each the last one of its section, don't fit together: they give a section or an outside name
    /// two values, or a reference of one goes to no instruction that the other's code has for its offset.
    Conflict {
        /// The section or the outside name; or the section with the offset.
        unknown: ConflictName,
        /// The first candidate's value; or the address to which the reference goes.
        value: u32,
        /// The second candidate's value; or the address of the instruction at that offset.
        other_value: u32,
        /// The field that has the first value.
        place: Spot,
        /// The field that has the second value; or the offset.
        other_place: Spot,
    },
    /// 18: no address is known for the name.
    Unresolved(Name),
    /// 19: several addresses are known for a name.
    TwoNames {
        /// The name.
        name: Name,
        /// The lowest address.
        first: u32,
        /// The next one.
        second: u32,
    },
    /// 20: pre code of a section can't be decoded or matched at this offset.
    PreUndecoded(Name, u32),
    /// 21: a first version of a section has too little room for the jump; its room in bytes.
    TooSmall(Name, u32),
    /// 22: a range that would be retired meets another body, or a retired range.
    Overlap {
        /// The low of the range that would be retired.
        retired: u32,
        /// The low of what it meets.
        other: u32,
    },
    /// 23: the arena has no place for so many bytes.
    NoRoom(u32),
    /// 24: as many updates are live as may be.
    TooMany,
    /// 25: a thread stands in a range.
    Busy(Standing),
    /// 26: a thread's ESP is below its stack, or above its end.
    StackOut {
        /// The thread's number.
        thread: u32,
        /// Its ESP.
        esp: u32,
    },
    /// 27: no update is live.
    NothingApplied,
    /// 28: the image breaks a rule at the field at this offset; or it ends too early, and this is its length.
    BadImage(u32, ImageFault),
    /// 29: the script's line of this number, counted from 1, isn't in the grammar.
    BadLine(u32),
    /// 30: no running thread has this number.
    NoThread(u32),
    /// 31: no function symbol has the name.
    NoSymbol(Name),
    /// 32: every stack has a running thread.
    NoStack,
    /// 33: a later update that is live, of this name, retired code of the one that is to be taken back.
    Covered(Name),
    /// 34: a later update that is live needs code or data of the one that is to be taken back.
    Needed {
        /// The later update's name.
        update: Name,
        /// The section of its field that leads there.
        section: Name,
        /// The field's offset in the section, in bytes.
        offset: u32,
    },
    /// 35: a section's relocation of this index has a text that isn't in its section, or doesn't end.
    BadString(Name, u32),
    /// 36: a section's relocation of this index has a symbol that can't be a target.
    BadTarget(Name, u32),
    /// 37: as many threads were spawned as may be.
    TooManyThreads,
    /// 38: a live update has the name.
    NameTaken(Name),
    /// 39: no live update has the name.
    NoUpdate(Name),
    /// 40: the objects that are to be linked define the global name twice.
    DoubleGlobal(Name),
    /// 41: the objects that are to be linked have no global symbol of the name.
    Undefined(Name),
    /// 42: a limit of the linked image is passed.
    LinkTooLarge(LinkLimit),
    /// 43: the jump of the update of this name isn't written whole yet.
    PokeOpen(Name),
    /// 44: no jump is at the stage from which the call goes on.
    NoPoke,
    /// 45: not exactly one function is changed, or some function is added or dropped.
    NotOneChanged,
    /// 46: a function that an update runs has stopped.
    HookFault {
        /// The function's name.
        function: Name,
        /// Why it stopped.
        fault: Fault,
        /// The program counter where it did.
        pc: u32,
    },
    /// 47: a function of this name that an update runs has made as many steps as it may without ending.
    HookBudget(Name),
    /// 48: the list of functions that an update is to run breaks a rule at this offset.
    BadHooks(u32),
    /// Memory ran out. It has no number, and no reply is written for it.
    Memory,
}

impl fmt::Debug for Refusal {
    /// Shows the number alone, 0 for [`Refusal::Memory`].
    fn fmt<W: fmt::Write>(&self, f: &mut fmt::Formatter<W>) -> fmt::Result {
        fmt::Debug::fmt(&self.number(), f)
    }
}

impl Refusal {
    ghost use Rattle.std.specs.Prelude.{◌≡◌, ◌≢◌, true, false};
    ghost use Rattle.ks_base.specs.declared.refusals.Refusal.TheVariants.{Memory};

    /// Whether it is [`Refusal::Memory`].
    pub fn is_memory(&self) -> bool
        ensures memory { result ≡ true → self.now ≡ Memory }
        ensures other { result ≡ false → self.now ≢ Memory }
    {
        matches!(self, Refusal::Memory)
    }
}

impl From<AllocError> for Refusal {
    ghost use Rattle.std.specs.Prelude.{◌≡◌};
    ghost use Rattle.ks_base.specs.declared.refusals.Refusal.TheVariants.{Memory};

    ghost from_gives = { λ _ refusal. refusal ≡ Memory };

    fn from(_error: AllocError) -> Refusal {
        Refusal::Memory
    }
}
