//! Flags by the letters of those that are set, O, S, Z, P and C.
use ia32_alu::Flags;

pub(crate) fn flags(set: &str) -> Flags {
    Flags {
        cf: set.contains('C'),
        pf: set.contains('P'),
        zf: set.contains('Z'),
        sf: set.contains('S'),
        of: set.contains('O'),
    }
}

/// The flags that are among those that are defined; the others are clear.
pub(crate) fn defined_of(flags: Flags, defined: Flags) -> Flags {
    Flags {
        cf: flags.cf && defined.cf,
        pf: flags.pf && defined.pf,
        zf: flags.zf && defined.zf,
        sf: flags.sf && defined.sf,
        of: flags.of && defined.of,
    }
}
