//! An update that is made again where memory ran out.
use image_file::read_image;
use ks_base::{Line, Name, Refusal, Report};
use ks_io::{MemoryFiles, MemorySink};
use ksplice_session::{Session, SessionEnd, put_applied, run_session};
use script_lines::read_script;
use std::alloc::{AllocError, Global};

/// What came of an update, and at which try.
type Tried = (Result<Report, Refusal>, u32);

/// The session of an image after the lines of a script, which need no files; their replies are passed over.
fn session_after(alloc: Global, image: &[u8], script: &[u8]) -> Result<Session, Refusal> {
    let script = read_script(alloc, script)?;
    let image = read_image(alloc, image)?;
    let mut session = Session::new(alloc, image)?;
    let mut files = MemoryFiles::new(alloc, Vec::new(alloc));
    let mut out = MemorySink::new(alloc, Vec::new(alloc), usize::MAX);
    match run_session(alloc, &mut session, &script, &mut files, &mut out) {
        SessionEnd::MemoryEnd => Err(Refusal::Memory),
        _ => Ok(session),
    }
}

/// Replaces functions of a program, and tries it once more, on what it is then, where memory ran out.
fn tried(session: Session, name: &Name, pre: &[u8], post: &[u8]) -> Tried {
    let (mut live, _watch) = session.into_parts();
    if let Err(refusal) = live.check_closed() {
        return (Err(refusal), 1);
    }
    let Some(system) = live.system_mut() else {
        unreachable!()
    };
    match system.apply(name, pre, post) {
        Err(Refusal::Memory) => (system.apply(name, pre, post), 2),
        came => (came, 1),
    }
}

fn put_tried(line: &mut Line, name: &Name, tried: &Tried) -> Result<(), AllocError> {
    match &tried.0 {
        Ok(report) => put_applied(line, name, tried.1, report),
        Err(Refusal::Memory) => line.put_text("memory again\n"),
        Err(refusal) => line.put_refusal(refusal),
    }
}

/// Makes an update in a session that is ready for it, and puts the reply.
fn put_update(
    line: &mut Line,
    name: &Name,
    session: Session,
    pre: &[u8],
    post: &[u8],
) -> Result<(), AllocError> {
    let tried = tried(session, name, pre, post);
    put_tried(line, name, &tried)
}

/// The same, or why there is no such session.
fn put_outcome(
    line: &mut Line,
    name: &Name,
    ready: Result<Session, Refusal>,
    pre: &[u8],
    post: &[u8],
) -> Result<(), AllocError> {
    match ready {
        Ok(session) => put_update(line, name, session, pre, post),
        Err(Refusal::Memory) => line.put_text("memory\n"),
        Err(refusal) => line.put_refusal(&refusal),
    }
}

/// The reply to an update from one object to another, made after the lines of a script: how many times it was tried,
/// which is twice where memory ran out the first time, and its report; or what is refused of the files or the update.
pub fn line_of_update(
    alloc: Global,
    image: &[u8],
    script: &[u8],
    pre: &[u8],
    post: &[u8],
) -> Result<Line, AllocError> {
    let mut line = Line::new(alloc);
    let name = Name::from_slice(alloc, b"u1")?;
    let ready = session_after(alloc, image, script);
    put_outcome(&mut line, &name, ready, pre, post)?;
    Ok(line)
}
