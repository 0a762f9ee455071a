//! Whole calls over files and a sink in memory, which fail in mid-stream, and in which memory runs out.
use crate::images::{LINKED, LISTING, PAIR, PROGRAM};
use crate::objects::OBJECTS;
use ks_io::{MemoryFiles, MemorySink};
use ksplice_calls::ksplice;
use object_builder::{Section, object};
use std::alloc::{AllocError, Global};
use std::test::Fail;

const USAGE: &str = "\
    usage: ksplice diff PRE POST | code IMAGE NAME | match IMAGE PRE | run IMAGE SCRIPT | gen NUMBER \
    | link OBJECT...\n";

// A script with one reply of each kind, and its replies.
const SCRIPT: &str = "# a thread\nspawn main 7\nstep 0 2\nthreads\n\nrr 1 9\npeek 0x00100000 2\n";

const REPLIES: &str = "\
spawned 0 0x00100010 main+0x0
stepped 0 2 running 0x00100005 f+0x5
thread 0 running 0x00100005 f+0x5
threads 1
rr 3
0x00100000: b8 01
";

// A script in which `main` runs, `f` is replaced, `main` runs again, and the update is taken back; and its replies.
const UPDATE: &str = "\
spawn main 0
step 0 100
apply u1 pre.o post.o
spawn main 0
step 1 100
peek 0x00100000 6
list
undo
peek 0x00100000 6
undo
";

const UPDATED: &str = "\
spawned 0 0x00100010 main+0x0
stepped 0 5 exited 0x00000001
applied u1 tries 1
 replaced f 0x00100000 0x00800000 6
spawned 1 0x00100010 main+0x0
stepped 1 6 exited 0x00000002
0x00100000: e9 fb ff 6f 00 c3
update u1 1
updates 1
undone u1
0x00100000: b8 01 00 00 00 c3
refused 27 nothing applied
";

// What `match pair start` prints: the call tells which `tw` it is.
const START_VALUES: &str = "\
code start 0x00100040
outside ext 0x00100050
code tw 0x00100030
";

// What `gen 0` prints.
const SUMMARY: &str = "\
gen 0 functions 16
lines 134 applied 8 undone 3 refused 0
thread 35 exited 0x00000004
threads 36
watch disciplined
";

const CONFLICT: &str =
    "refused 17 conflict .data.x 0x00200000 at .text.p+0x1 0x00200008 at .text.q+0x1\n";

/// The files, of which the numbered loads fail.
fn files_of(alloc: Global, loads: &[u64]) -> Result<MemoryFiles, AllocError> {
    let mut files = MemoryFiles::new(alloc, Vec::from_slice(alloc, loads)?);
    for (name, sections) in OBJECTS {
        put_object(alloc, &mut files, name, sections)?;
    }
    files.put("program", &PROGRAM)?;
    files.put("pair", &PAIR)?;
    files.put("script", SCRIPT.as_bytes())?;
    files.put("update", UPDATE.as_bytes())?;
    Ok(files)
}

fn put_object(
    alloc: Global,
    files: &mut MemoryFiles,
    name: &str,
    sections: &[Section],
) -> Result<(), AllocError> {
    let file = object(alloc, sections)?;
    files.put(name, file.as_slice())
}

fn words_of(alloc: Global, words: &[&str]) -> Result<Vec<String>, AllocError> {
    let mut all = Vec::new(alloc);
    for word in words {
        all.push(String::from_str(alloc, word)?)?;
    }
    Ok(all)
}

/// The words; the numbers of the loads and of the writes that fail, the most bytes that a write takes; the output and
/// the status.
type Call = (
    &'static [&'static str],
    &'static [u64],
    &'static [u64],
    usize,
    &'static str,
    u8,
);

/// How a call ends.
#[derive(Clone, Copy, PartialEq, Eq)]
enum End {
    /// With its output and its status.
    AsTold,
    /// With a prefix of its output, since memory ran out.
    WithoutMemory,
    Otherwise,
}

/// Makes a call.
fn end_of(alloc: Global, call: &Call) -> Result<End, AllocError> {
    let (words, loads, writes, most, output, status) = call;
    let all = words_of(alloc, words)?;
    let mut files = files_of(alloc, loads)?;
    let mut out = MemorySink::new(alloc, Vec::from_slice(alloc, writes)?, *most);
    let code = ksplice(alloc, all.as_slice(), &mut files, &mut out).code;
    let taken = out.taken();
    if code == *status && taken == output.as_bytes() {
        return Ok(End::AsTold);
    }
    let front = output.as_bytes().get(..taken.len());
    Ok(if code == 6 && Some(taken) == front {
        End::WithoutMemory
    } else {
        End::Otherwise
    })
}

static FAULTS: [Call; 26] = [
    (&["diff", "one"], &[], &[], 7, USAGE, 2),
    (
        &["diff", "one", "two"],
        &[1],
        &[],
        100,
        "file one failed\n",
        4,
    ),
    (
        &["diff", "one", "two"],
        &[2],
        &[],
        100,
        "file two failed\n",
        4,
    ),
    (&["diff", "one", "two"], &[3], &[], 100, "changed f\n", 0),
    (&["diff", "one", "two"], &[], &[2], 4, "chan", 5),
    (&["diff", "one", "two"], &[], &[], 0, "", 5),
    (&["diff", "one", "two"], &[1], &[1], 4, "", 5),
    (
        &["code", "program", "f"],
        &[1],
        &[],
        100,
        "file program failed\n",
        4,
    ),
    (&["code", "program", "f"], &[2], &[], 1, LISTING, 0),
    (&["code", "program", "f"], &[], &[3], 5, "0x00100000", 5),
    (&["code", "program", "f"], &[], &[], 0, "", 5),
    (
        &["match", "pair", "start"],
        &[1],
        &[],
        100,
        "file pair failed\n",
        4,
    ),
    (
        &["match", "pair", "start"],
        &[2],
        &[],
        100,
        "file start failed\n",
        4,
    ),
    (&["match", "pair", "start"], &[3], &[], 1, START_VALUES, 0),
    (&["match", "pair", "start"], &[], &[2], 10, "code start", 5),
    (
        &["run", "program", "script"],
        &[1],
        &[],
        100,
        "file program failed\n",
        4,
    ),
    (
        &["run", "program", "script"],
        &[2],
        &[],
        100,
        "file script failed\n",
        4,
    ),
    (&["run", "program", "script"], &[3], &[], 1, REPLIES, 0),
    (
        &["run", "program", "script"],
        &[],
        &[2],
        100,
        "spawned 0 0x00100010 main+0x0\n",
        5,
    ),
    (&["run", "program", "script"], &[], &[3], 5, "spawned 0 ", 5),
    (
        &["run", "program", "update"],
        &[3],
        &[],
        100,
        "spawned 0 0x00100010 main+0x0\nstepped 0 5 exited 0x00000001\nfile pre.o failed\n",
        4,
    ),
    (&["run", "program", "update"], &[], &[], 1, UPDATED, 3),
    (&["run", "program", "update"], &[], &[], 0, "", 5),
    (
        &["link", "caller", "one"],
        &[2],
        &[],
        100,
        "file one failed\n",
        4,
    ),
    (&["gen", "0"], &[1], &[], 1, SUMMARY, 0),
    (&["gen", "0"], &[], &[2], 5, "gen 0", 5),
];

#[test]
fn faults_of_the_outside(rt: HostRuntime) -> Result<(), Fail> {
    for (at, call) in FAULTS.iter().enumerate() {
        assert!(rt; end_of(rt.alloc(), call)? == End::AsTold, "call {at}");
    }
    Ok(())
}

static CALLS: [Call; 11] = [
    (&["match", "pair", "start"], &[], &[], 7, START_VALUES, 0),
    (&["match", "pair", "p and q"], &[], &[], 7, CONFLICT, 3),
    (&["run", "program", "script"], &[], &[], 7, REPLIES, 0),
    (&["code", "program", "f"], &[], &[], 7, LISTING, 0),
    (&["diff", "one", "two"], &[], &[], 7, "changed f\n", 0),
    (&["gen", "0"], &[], &[], 7, SUMMARY, 0),
    (
        &["diff", "text a", "text b"],
        &[],
        &[],
        7,
        "changed f\ncarried .rodata.str1.1\n",
        0,
    ),
    (
        &["diff", "data", "other data"],
        &[],
        &[],
        7,
        "refused 11 data changed .data.n\n",
        3,
    ),
    (
        &["link", "one", "caller", "two"],
        &[],
        &[],
        7,
        "refused 40 double global f\n",
        3,
    ),
    (
        &["link", "caller", "start"],
        &[],
        &[],
        7,
        "refused 41 undefined f\n",
        3,
    ),
    (
        &["diff", "one", "none"],
        &[],
        &[],
        7,
        "file none missing\n",
        4,
    ),
];

/// A call in which memory runs out ends with 6 and a prefix of its output. `rt try --test --fail-alloc N` makes the
/// allocation of this number fail; where that is one for the files, no call is made, and the test ends with that.
#[test]
fn want_of_memory(rt: HostRuntime) -> Result<(), Fail> {
    for (at, call) in CALLS.iter().enumerate() {
        assert!(rt; end_of(rt.alloc(), call)? != End::Otherwise, "call {at}");
    }
    Ok(())
}

/// Whether the image of two objects comes out, of which the first calls a function of the second.
fn are_linked(alloc: Global) -> Result<bool, AllocError> {
    let words = words_of(alloc, &["link", "caller", "one"])?;
    let mut files = files_of(alloc, &[])?;
    let mut out = MemorySink::new(alloc, Vec::new(alloc), 100);
    let status = ksplice(alloc, words.as_slice(), &mut files, &mut out);
    Ok(status.code == 0 && out.taken() == LINKED.as_slice())
}

#[test]
fn linked_objects(rt: HostRuntime) -> Result<(), Fail> {
    assert!(rt; are_linked(rt.alloc())?);
    Ok(())
}
