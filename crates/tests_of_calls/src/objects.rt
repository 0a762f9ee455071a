//! The objects of the tests, by the names of their files.

use object_builder::Kind::{Data, Global, Local, Strings, Zeros};
use object_builder::{ABSOLUTE, RELATIVE, Section};

/// `mov eax, 1` and `ret`.
const F: Section = Section {
    name: ".text.f",
    kind: Global("f"),
    bytes: b"\xb8\x01\0\0\0\xc3",
    references: &[],
};

// `mov eax, 2` and `ret`.
const F_CHANGED: Section = Section {
    name: ".text.f",
    kind: Global("f"),
    bytes: b"\xb8\x02\0\0\0\xc3",
    references: &[],
};

// Gives the address of the text at 0.
const TEXT_AT_0: Section = Section {
    name: ".text.f",
    kind: Global("f"),
    bytes: b"\xb8\0\0\0\0\xc3",
    references: &[(1, ABSOLUTE, ".rodata.str1.1")],
};

const A: Section = Section {
    name: ".rodata.str1.1",
    kind: Strings,
    bytes: b"a\0",
    references: &[],
};

const B: Section = Section {
    name: ".rodata.str1.1",
    kind: Strings,
    bytes: b"b\0",
    references: &[],
};

const ONE: Section = Section {
    name: ".data.n",
    kind: Data,
    bytes: b"\x01\0\0\0",
    references: &[],
};

const TWO: Section = Section {
    name: ".data.n",
    kind: Data,
    bytes: b"\x02\0\0\0",
    references: &[],
};

const EIGHT_ZEROS: Section = Section {
    name: ".bss.z",
    kind: Zeros,
    bytes: b"\0\0\0\0\0\0\0\0",
    references: &[],
};

// Loads the variable `x`, and `ret`; twice.
const P: Section = Section {
    name: ".text.p",
    kind: Global("p"),
    bytes: b"\xa1\0\0\0\0\xc3",
    references: &[(1, ABSOLUTE, ".data.x")],
};

const Q: Section = Section {
    name: ".text.q",
    kind: Global("q"),
    bytes: b"\xa1\0\0\0\0\xc3",
    references: &[(1, ABSOLUTE, ".data.x")],
};

const X: Section = Section {
    name: ".data.x",
    kind: Data,
    bytes: b"\0\0\0\0",
    references: &[],
};

/// Calls `f`, and `ret`.
const MAIN: Section = Section {
    name: ".text.main",
    kind: Global("main"),
    bytes: b"\xe8\xfc\xff\xff\xff\xc3",
    references: &[(1, RELATIVE, ".text.f")],
};

// Calls `f` of another object, and `ret`.
const CALLER: Section = Section {
    name: ".text.main",
    kind: Global("main"),
    bytes: b"\xe8\xfc\xff\xff\xff\xc3",
    references: &[(1, RELATIVE, "f")],
};

/// `xor eax, eax` and `ret`.
const TW: Section = Section {
    name: ".text.tw",
    kind: Local("tw"),
    bytes: b"\x31\xc0\xc3",
    references: &[],
};

/// Calls `tw` and `ext`, and `ret`.
const START: Section = Section {
    name: ".text.start",
    kind: Global("start"),
    bytes: b"\xe8\xfc\xff\xff\xff\xe8\xfc\xff\xff\xff\xc3",
    references: &[(1, RELATIVE, ".text.tw"), (6, RELATIVE, "ext")],
};

pub(crate) const OBJECTS: [(&str, &[Section]); 11] = [
    ("one", &[F]),
    ("two", &[F_CHANGED]),
    ("pre.o", &[F, MAIN]),
    ("post.o", &[F_CHANGED, MAIN]),
    ("p and q", &[X, P, Q]),
    ("start", &[START, TW]),
    ("caller", &[CALLER]),
    ("text a", &[TEXT_AT_0, A]),
    ("text b", &[TEXT_AT_0, B]),
    ("data", &[ONE, F_CHANGED, EIGHT_ZEROS]),
    ("other data", &[TWO, F_CHANGED, EIGHT_ZEROS]),
];
