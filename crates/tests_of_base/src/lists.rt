//! Callers of the lists with clauses over lists, and the texts of a reply.
ghost use Rattle.std.specs.Prelude.{◌≡◌, ◌++◌, ◌∷◌, [], OnOk, OnErr, IfOk, IsTrue, ◌↔◌, Contains, option_to_list, set};
ghost use Rattle.std.specs.Option.{option_copied, option_map, unwrap_or};
ghost use Rattle.std.specs.List.{slice_get};
ghost use Rattle.std.specs.Ordering.{nat_cmp};
ghost use Rattle.std.specs.Cmp.Lexicographic.{slice_cmp};
ghost use Rattle.std.specs.BTreeMap.{get};

use ks_base::{
    ConflictName, Difference, DifferenceKind, Fault, ImageFault, Large, Line, LinkLimit, Name,
    Names, Place, Range, Ranges, Refusal, Spot, Standing,
};
use std::alloc::{AllocError, Global};
use std::collections::BTreeMap;
use std::test::Fail;

#[derive(Clone, PartialEq, Eq, PartialOrd, Ord, Hash, Debug, Drop)]
enum Unknown {
    Code(Name),
    Outside(Name),
}

fn copied(unknown: &Unknown) -> Result<Unknown, AllocError>
    ensures { IfOk result (λ copy. copy ≡ unknown.now) }
{
    unknown.clone()
}

fn is_same(a: &Unknown, b: &Unknown) -> bool
    ensures { IsTrue result ↔ (a.now ≡ b.now) }
{
    a == b
}

fn spot_at(alloc: Global, section: &[u8], offset: u32) -> Result<Spot, AllocError>
    ensures { IfOk result (λ spot. spot ≡ record { section = section.now; offset = offset }) }
{
    Ok(Spot {
        section: Name::from_slice(alloc, section)?,
        offset,
    })
}

fn append(names: &mut Names, name: &Name) -> Result<(), AllocError>
    ensures ok { OnOk result (names.new ≡ names.old ++ name.now ∷ []) }
    ensures err { OnErr result (names.new ≡ names.old) }
{
    let copy = name.clone()?;
    names.push(copy)
}

fn first(names: &Names) -> Option<&Name>
    ensures { option_copied result ≡ slice_get names.now 0 }
{
    names.get(0)
}

/// Puts another address at the high of a list's range, where it has one.
fn widen(ranges: &mut Ranges, i: usize, high: u32)
    ensures { ranges.new ≡ unwrap_or (option_map (λ range. set ranges.old i (record range { high = high }))
        (slice_get ranges.old i)) ranges.old }
{
    if let Some(range) = ranges.get_mut(i) {
        range.high = high;
    }
}

fn has(names: &Names, name: &Name) -> bool
    ensures { IsTrue result ↔ Contains names.now name.now }
{
    names.as_slice().contains(name)
}

fn take_last(ranges: &mut Ranges) -> Option<Range>
    ensures { ranges.old ≡ ranges.new ++ option_to_list result }
{
    ranges.pop()
}

fn name_of(alloc: Global, bytes: &[u8]) -> Result<Name, AllocError>
    ensures { IfOk result (λ name. name ≡ bytes.now) }
{
    Name::from_slice(alloc, bytes)
}

fn index_of(indices: &BTreeMap<Name, usize>, name: &Name) -> Option<usize>
    ensures { result ≡ get (slice_cmp nat_cmp) indices.now name.now }
{
    indices.get(name).copied()
}

#[test]
fn spots_and_names(rt: HostRuntime) -> Result<(), Fail> {
    let alloc = rt.alloc();
    let spot = spot_at(alloc, b".text.f", 1)?;
    assert_eq!(rt; spot.section.as_slice(), b".text.f".as_slice());
    let mut names = Names::new(alloc);
    assert!(rt; names.is_empty());
    append(&mut names, &spot.section)?;
    assert!(rt; has(&names, &spot.section));
    assert!(rt; names.len() == 1 && first(&names).is_some());
    Ok(())
}

#[test]
fn names_as_keys(rt: HostRuntime) -> Result<(), Fail> {
    let alloc = rt.alloc();
    let code = Unknown::Code(name_of(alloc, b"f")?);
    assert!(rt; is_same(&copied(&code)?, &code));
    assert!(rt; !is_same(&code, &Unknown::Outside(name_of(alloc, b"f")?)));
    let mut indices = BTreeMap::new(alloc);
    indices.insert(name_of(alloc, b"f")?, 7usize)?;
    assert_eq!(rt; index_of(&indices, &name_of(alloc, b"f")?), Some(7));
    Ok(())
}

#[test]
fn last_range_is_taken(rt: HostRuntime) -> Result<(), Fail> {
    let range = Range { low: 16, high: 32 };
    let mut ranges = Ranges::from_slice(rt.alloc(), &[range])?;
    assert_eq!(rt; take_last(&mut ranges), Some(range));
    assert_eq!(rt; take_last(&mut ranges), None);
    assert_eq!(rt; ranges.into_vec().len(), 0);
    Ok(())
}

#[test]
fn range_is_changed_where_it_stands(rt: HostRuntime) -> Result<(), Fail> {
    let narrow = Range { low: 16, high: 32 };
    let mut ranges = Ranges::from_slice(rt.alloc(), &[narrow, narrow])?;
    widen(&mut ranges, 1, 48);
    widen(&mut ranges, 2, 64);
    assert_eq!(rt;
        ranges.as_slice(),
        [narrow, Range { low: 16, high: 48 }].as_slice()
    );
    Ok(())
}

#[test]
fn places_in_texts(rt: HostRuntime) -> Result<(), Fail> {
    let mut line = Line::new(rt.alloc());
    line.put_text("at ")?;
    for n in [0x0010_0000u32, 0x003f_fffc, 0xffff_0000] {
        line.put_hex(n)?;
    }
    for n in [0u32, 6, 0x2b, 0xffff_ffff] {
        line.put_offset(n)?;
    }
    assert_eq!(rt;
        line.bytes(),
        b"at 0x001000000x003ffffc0xffff00000x00x60x2b0xffffffff".as_slice()
    );
    Ok(())
}

#[test]
fn numbers_and_names_in_texts(rt: HostRuntime) -> Result<(), Fail> {
    let mut line = Line::new(rt.alloc());
    for n in [0u64, 1000, 18_446_744_073_709_551_615] {
        line.put_number(n)?;
        line.put_text(",")?;
    }
    line.put_byte(0x0b)?;
    line.put_name(&name_of(rt.alloc(), b"!~work.cold \\\x7f\xe9\n")?)?;
    assert_eq!(rt;
        line.bytes(),
        br"0,1000,18446744073709551615,0b!~work.cold\x20\x5c\x7f\xe9\x0a".as_slice()
    );
    Ok(())
}

/// The refusals that hold no name, by their number.
fn plain(number: u8) -> Refusal {
    match number {
        1 => Refusal::NotElf,
        2 => Refusal::NotRel386,
        3 => Refusal::BadHeader(20),
        4 => Refusal::BadSection(1),
        5 => Refusal::BadSymbol(2),
        6 => Refusal::BadReloc {
            section: 3,
            entry: 0,
        },
        10 => Refusal::TooLarge(Large::Relocations),
        12 => Refusal::NoChange,
        22 => Refusal::Overlap {
            retired: 0x0010_0000,
            other: 0x0010_0002,
        },
        23 => Refusal::NoRoom(6),
        24 => Refusal::TooMany,
        26 => Refusal::StackOut {
            thread: 0,
            esp: 0x003f_fffc,
        },
        27 => Refusal::NothingApplied,
        28 => Refusal::BadImage(4, ImageFault::Short),
        29 => Refusal::BadLine(2),
        30 => Refusal::NoThread(7),
        32 => Refusal::NoStack,
        37 => Refusal::TooManyThreads,
        42 => Refusal::LinkTooLarge(LinkLimit::Symbols),
        44 => Refusal::NoPoke,
        45 => Refusal::NotOneChanged,
        48 => Refusal::BadHooks(4),
        _ => Refusal::Memory,
    }
}

/// The refusals that hold a name alone, or a name and numbers, by their number.
fn named(number: u8, name: Name) -> Refusal {
    match number {
        7 => Refusal::UnknownReloc {
            section: name,
            entry: 0,
            kind: 10,
        },
        8 => Refusal::NotOneFunction(name),
        9 => Refusal::DoubleName(name),
        11 => Refusal::DataChanged(name),
        13 => Refusal::Interior(name, 4),
        14 => Refusal::NoCandidate(name),
        16 => Refusal::Ambiguous {
            section: name,
            first: 0x0010_0000,
            second: 0x0010_0010,
        },
        18 => Refusal::Unresolved(name),
        19 => Refusal::TwoNames {
            name,
            first: 0x0010_0000,
            second: 0x0010_0010,
        },
        20 => Refusal::PreUndecoded(name, 18),
        21 => Refusal::TooSmall(name, 4),
        31 => Refusal::NoSymbol(name),
        33 => Refusal::Covered(name),
        35 => Refusal::BadString(name, 4),
        36 => Refusal::BadTarget(name, 5),
        38 => Refusal::NameTaken(name),
        39 => Refusal::NoUpdate(name),
        40 => Refusal::DoubleGlobal(name),
        41 => Refusal::Undefined(name),
        43 => Refusal::PokeOpen(name),
        46 => Refusal::HookFault {
            function: name,
            fault: Fault::CodeAccess,
            pc: 0x0080_001a,
        },
        47 => Refusal::HookBudget(name),
        _ => Refusal::Memory,
    }
}

fn mismatch(alloc: Global) -> Result<Refusal, AllocError> {
    let difference = Difference {
        index: 2,
        pre_offset: 6,
        run_address: 0x0010_0026,
        kind: DifferenceKind::Target,
    };
    Ok(Refusal::Mismatch(name_of(alloc, b".text.h")?, difference))
}

fn conflict(alloc: Global, offset: Option<u32>) -> Result<Refusal, AllocError> {
    let name = name_of(alloc, b".data.x")?;
    let p = spot_at(alloc, b".text.p", 1)?;
    let q = spot_at(alloc, b".text.q", 1)?;
    let unknown = ConflictName { name, offset };
    Ok(Refusal::Conflict {
        unknown,
        value: 0x0020_0000,
        other_value: 0x0020_0008,
        place: p,
        other_place: q,
    })
}

fn needed(alloc: Global) -> Result<Refusal, AllocError> {
    Ok(Refusal::Needed {
        update: name_of(alloc, b"u2")?,
        section: name_of(alloc, b".text.g")?,
        offset: 1,
    })
}

fn busy(place: Place, value: u32) -> Refusal {
    Refusal::Busy(Standing {
        thread: 0,
        place,
        value,
    })
}

/// The lines of all refusals.
const LINES: &str = "refused 1 not elf
refused 2 not i386 relocatable
refused 3 bad header 20
refused 4 bad section 1
refused 5 bad symbol 2
refused 6 bad relocation 3 0
refused 7 unknown relocation .text.f 0 10
refused 8 not one function .text.f
refused 9 double name .text.f
refused 10 too large relocations
refused 11 data changed .text.f
refused 12 no change
refused 13 interior .text.f 0x4
refused 14 no candidate .text.f
refused 15 mismatch .text.h index 2 pre 0x6 run 0x00100026 target
refused 16 ambiguous .text.f 0x00100000 0x00100010
refused 17 conflict .data.x 0x00200000 at .text.p+0x1 0x00200008 at .text.q+0x1
refused 17 conflict .data.x+0xb 0x00200000 at .text.p+0x1 0x00200008 at .text.q+0x1
refused 18 unresolved .text.f
refused 19 two names .text.f 0x00100000 0x00100010
refused 20 pre undecoded .text.f 0x12
refused 21 too small .text.f room 4
refused 22 overlap 0x00100000 0x00100002
refused 23 no room 6
refused 24 too many updates
refused 25 busy thread 0 pc 0x00100000
refused 25 busy thread 0 register esi 0x00100000
refused 25 busy thread 0 stack 0x00400ff0 0x00100005
refused 26 stack out thread 0 0x003ffffc
refused 27 nothing applied
refused 28 bad image at 4 short
refused 29 bad line 2
refused 30 no thread 7
refused 31 no symbol .text.f
refused 32 no stack
refused 33 covered .text.f
refused 34 needed u2 .text.g+0x1
refused 35 bad string .text.f 4
refused 36 bad target .text.f 5
refused 37 too many threads
refused 38 name taken .text.f
refused 39 no update .text.f
refused 40 double global .text.f
refused 41 undefined .text.f
refused 42 link too large symbols
refused 43 poke open .text.f
refused 44 no poke
refused 45 not one changed
refused 46 hook .text.f code-access 0x0080001a
refused 47 hook budget .text.f
refused 48 bad hooks 0x4
";

/// The refusal of a number, of those that hold no name or one.
fn refusal_of(alloc: Global, number: u8) -> Result<Refusal, AllocError> {
    match plain(number) {
        Refusal::Memory => Ok(named(number, name_of(alloc, b".text.f")?)),
        refusal => Ok(refusal),
    }
}

fn put(line: &mut Line, refusal: Refusal) -> Result<(), AllocError> {
    line.put_refusal(&refusal)
}

fn put_conflicts(alloc: Global, line: &mut Line) -> Result<(), AllocError> {
    put(line, conflict(alloc, None)?)?;
    put(line, conflict(alloc, Some(11))?)
}

fn put_busy(line: &mut Line) -> Result<(), AllocError> {
    put(line, busy(Place::Pc, 0x0010_0000))?;
    put(line, busy(Place::Register(6), 0x0010_0000))?;
    put(line, busy(Place::Stack(0x0040_0ff0), 0x0010_0005))
}

/// The refusals of a number, of which some have several forms.
fn put_refusals(alloc: Global, line: &mut Line, number: u8) -> Result<(), AllocError> {
    match number {
        15 => put(line, mismatch(alloc)?),
        17 => put_conflicts(alloc, line),
        25 => put_busy(line),
        34 => put(line, needed(alloc)?),
        _ => put(line, refusal_of(alloc, number)?),
    }
}

#[test]
fn refusals(rt: HostRuntime) -> Result<(), Fail> {
    let mut line = Line::new(rt.alloc());
    for number in 1..49 {
        put_refusals(rt.alloc(), &mut line, number)?;
    }
    let got = std::str::from_utf8(line.bytes()).unwrap_or("");
    assert!(rt; line.bytes() == LINES.as_bytes(), "{got}");
    Ok(())
}
