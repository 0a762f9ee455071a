//! The refusals of objects.
ghost use Rattle.std.specs.Prelude.{◌≡◌};
ghost use Rattle.i386_reloc.specs.Refused.{limit_of, refusal_of_fault};

use elf32_object::types::{Large, ObjectFault};
use ks_base::Refusal;

/// The refusal of an object that isn't read: the one of the same name and fields. `Memory` stays `Memory`.
pub fn object_refusal(fault: ObjectFault) -> Refusal
    ensures { result ≡ refusal_of_fault fault }
{
    match fault {
        ObjectFault::NotElf => Refusal::NotElf,
        ObjectFault::NotRel386 => Refusal::NotRel386,
        ObjectFault::BadHeader(offset) => Refusal::BadHeader(offset),
        ObjectFault::BadSection(index) => Refusal::BadSection(index),
        ObjectFault::BadSymbol(index) => Refusal::BadSymbol(index),
        ObjectFault::BadReloc(section, entry) => Refusal::BadReloc { section, entry },
        ObjectFault::TooLarge(what) => Refusal::TooLarge(limit(what)),
        ObjectFault::Memory => Refusal::Memory,
    }
}

fn limit(what: Large) -> ks_base::Large
    ensures { result ≡ limit_of what }
{
    match what {
        Large::Bytes => ks_base::Large::Bytes,
        Large::Sections => ks_base::Large::Sections,
        Large::Symbols => ks_base::Large::Symbols,
        Large::Relocations => ks_base::Large::Relocations,
        Large::Name => ks_base::Large::Name,
        Large::Content => ks_base::Large::Content,
    }
}
