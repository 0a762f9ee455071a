//! Sessions of a small program: the replies, how they end, and what is left; and the line of a lost file.
use frame_watch::Verdict;
use image_file::read_image;
use ks_io::{FileFault, MemoryFiles, MemorySink};
use ksplice_session::{Session, SessionEnd, run_session, write_file_line};
use object_builder::Kind::Global as Function;
use object_builder::{Section, object};
use script_lines::read_script;
use std::alloc::{AllocError, Global};
use std::test::Fail;

/// `f` gives 1, and `main` calls it and returns: the counts and the arena, the code, the symbols, and a stack.
const IMAGE: &[u8] = b"KIM1\x01\0\0\0\x02\0\0\0\x01\0\0\0\0\0\x80\0\0\0\x81\0\
    \x01\0\0\0\0\0\x10\0\x20\0\0\0\
    \xb8\x01\0\0\0\xc3\x66\x90\x66\x90\x66\x90\x66\x90\x66\x90\
    \xe8\xeb\xff\xff\xff\xc3\x90\x90\x90\x90\x90\x90\x90\x90\x90\x90\
    \0\0\x10\0\x01\0\0\0\x01\0\0\0\x01\0\0\0f\
    \x10\0\x10\0\x01\0\0\0\x01\0\0\0\x04\0\0\0main\
    \0\0\x40\0\0\x10\x40\0";

/// `f` as it runs, and one that gives 2.
const OLD: [Section; 1] = [Section {
    name: ".text.f",
    kind: Function("f"),
    bytes: b"\xb8\x01\0\0\0\xc3",
    references: &[],
}];

const NEW: [Section; 1] = [Section {
    name: ".text.f",
    kind: Function("f"),
    bytes: b"\xb8\x02\0\0\0\xc3",
    references: &[],
}];

/// Thread 0 stands in `f`, after its first instruction, and a step later in `main`. Thread 1 runs the new version: its
/// steps are the call, the jump at the home, two in the new version, the return of `main` and the end.
const UPDATING: &str = "spawn main 7
step 0 2
apply one pre.o post.o
apply one pre.o post.o tries 3 gap 1
apply one pre.o post.o
apply two pre.o post.o
peek 0x00100000 6
rr 1 100
spawn main 7
rr 1 100
threads
list
undo
list
undo
peek 0x00100000 6
watch
";

const UPDATED: &str = "spawned 0 0x00100010 main+0x0
stepped 0 2 running 0x00100005 f+0x5
refused 25 busy thread 0 pc 0x00100005
applied one tries 2
 replaced f 0x00100000 0x00800000 6
refused 38 name taken one
refused 15 mismatch .text.f index 0 pre 0x0 run 0x00800000 operand
0x00100000: e9 fb ff 6f 00 c3
rr 2
spawned 1 0x00100010 main+0x0
rr 6
thread 0 exited 0x00000001
thread 1 exited 0x00000002
threads 2
update one 1
updates 1
undone one
updates 0
refused 27 nothing applied
0x00100000: b8 01 00 00 00 c3
watch disciplined
";

const STEPPING: &str = "spawn main 7\nstep 0 2\nwatch\napply one pre.o post.o tries 2 gap 1\n";

const STEPPED: &str = "spawned 0 0x00100010 main+0x0
stepped 0 2 running 0x00100005 f+0x5
watch disciplined
applied one tries 2
 replaced f 0x00100000 0x00800000 6
";

/// A thread comes to `f` when the first byte of the jump there is written, and goes on at the new version.
const POKING: &str = "poke one pre.o post.o
peek 0x00100000 6
spawn main 7
step 0 2
undo
undo one
apply two pre.o post.o
poke two pre.o post.o
seal
tail
peek 0x00100000 6
tail
seal
peek 0x00100000 6
step 0 9
undo
watch
";

const POKED: &str = "marked one
 replaced f 0x00100000 0x00800000 6
0x00100000: cc 01 00 00 00 c3
spawned 0 0x00100010 main+0x0
stepped 0 2 running 0x00800000
refused 43 poke open one
refused 43 poke open one
refused 43 poke open one
refused 43 poke open one
refused 44 no poke
tailed one
0x00100000: cc fb ff 6f 00 c3
refused 44 no poke
sealed one
0x00100000: e9 fb ff 6f 00 c3
stepped 0 4 exited 0x00000002
undone one
watch disciplined
";

/// How a session ended, whether these are its replies, and the updates, the threads and the verdict that it left.
type Left = (SessionEnd, bool, usize, usize, Verdict);

/// The files of the scripts.
fn files_of(alloc: Global) -> Result<MemoryFiles, AllocError> {
    let mut files = MemoryFiles::new(alloc, Vec::new(alloc));
    let old = object(alloc, &OLD)?;
    let new = object(alloc, &NEW)?;
    files.put("pre.o", old.as_slice())?;
    files.put("post.o", new.as_slice())?;
    Ok(files)
}

fn session_of(alloc: Global) -> Option<Session> {
    let image = read_image(alloc, IMAGE).ok()?;
    Session::new(alloc, image).ok()
}

/// Runs a script in a session of its own.
fn ran(alloc: Global, script: &str, replies: &str) -> Option<Left> {
    let script = read_script(alloc, script.as_bytes()).ok()?;
    let mut files = files_of(alloc).ok()?;
    let mut session = session_of(alloc)?;
    let mut sink = MemorySink::new(alloc, Vec::new(alloc), 7);
    let end = run_session(alloc, &mut session, &script, &mut files, &mut sink);
    let same = sink.taken() == replies.as_bytes();
    let updates = session.system().updates().len();
    let (live, watch) = session.into_parts();
    let threads = live.system().machine().threads().len();
    Some((end, same, updates, threads, watch.verdict()))
}

#[test]
fn updates_a_function_and_takes_it_back(rt: HostRuntime) -> Result<(), Fail> {
    let left = ran(rt.alloc(), UPDATING, UPDATED).ok_or("not run")?;
    assert!(rt; left == (SessionEnd::SomeRefused, true, 0, 2, Verdict::Disciplined));
    Ok(())
}

#[test]
fn updates_where_no_line_is_refused(rt: HostRuntime) -> Result<(), Fail> {
    let left = ran(rt.alloc(), STEPPING, STEPPED).ok_or("not run")?;
    assert!(rt; left == (SessionEnd::Done, true, 1, 1, Verdict::Disciplined));
    Ok(())
}

#[test]
fn updates_a_function_in_separate_writes(rt: HostRuntime) -> Result<(), Fail> {
    let left = ran(rt.alloc(), POKING, POKED).ok_or("not run")?;
    assert!(rt; left == (SessionEnd::SomeRefused, true, 0, 1, Verdict::Disciplined));
    Ok(())
}

#[test]
fn line_of_a_lost_file(rt: HostRuntime) {
    let alloc = rt.alloc();
    let mut sink = MemorySink::new(alloc, Vec::new(alloc), 100);
    let first = write_file_line(alloc, "x.o", FileFault::Missing, &mut sink).is_ok();
    let second = write_file_line(alloc, "y.o", FileFault::TooLong, &mut sink).is_ok();
    let lines = b"file x.o missing\nfile y.o too long\n";
    assert!(rt; first && second && sink.taken() == lines.as_slice());
}
