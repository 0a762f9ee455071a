//! Files of the operating system, and their limit.
use ks_io::{FileFault, Files};
use ksplice_calls::RealFiles;
use std::fs;
use std::process::Abort;
use std::test::Fail;

/// A file that is one byte longer than its limit is too long, and none of it is kept; one as long as its limit is
/// whole.
#[test]
fn a_file_one_byte_above_its_limit(rt: HostRuntime) -> Result<(), Fail> {
    fs::write(&rt, "nine_bytes", "nine byte")?;
    let mut files = RealFiles::new(&rt);
    let mut into = Vec::new(rt.alloc());
    let short = files.load("nine_bytes", 8, &mut into);
    let cut = short == Err(FileFault::TooLong) && into.is_empty();
    let whole = files.load("nine_bytes", 9, &mut into).is_ok();
    let kept = into.as_slice() == b"nine byte".as_slice();
    let absent = files.load("no_such_file", 9, &mut into);
    assert!(rt; cut && whole && kept && absent == Err(FileFault::Missing));
    fs::remove_file(&rt, "nine_bytes")?;
    Ok(())
}
