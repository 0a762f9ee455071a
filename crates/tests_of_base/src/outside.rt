//! Each public call once, through the traits' bounds, with calls that fail in mid-stream.
use ks_io::{
    FileFault, Files, Lost, MemoryFiles, MemorySink, Sink, SinkFault, Wanted, load_all, write_all,
};
use std::test::Fail;

fn loaded<F: Files>(
    files: &mut F,
    name: &str,
    limit: u32,
    into: &mut Vec<u8>,
) -> Result<(), FileFault> {
    files.load(name, limit, into)
}

fn both_written<O: Sink>(out: &mut O, first: &[u8], second: &[u8]) -> Result<(), SinkFault> {
    write_all(out, first)?;
    write_all(out, second)
}

#[test]
fn files_answer_by_name_limit_and_call(rt: HostRuntime) -> Result<(), Fail> {
    let alloc = rt.alloc();
    let mut files = MemoryFiles::new(alloc, vec![in alloc; 4]?);
    files.put("pre.o", b"old")?;
    files.put("empty", b"")?;
    files.put("post.o", b"longer")?;
    files.put("pre.o", b"new!")?;
    let table: [(&str, u32, Result<(), FileFault>, &[u8]); 8] = [
        ("pre.o", 4, Ok(()), b"new!"),
        ("absent", 4, Err(FileFault::Missing), b""),
        ("post.o", 5, Err(FileFault::TooLong), b""),
        ("pre.o", 4, Err(FileFault::Failed), b""),
        ("pre.o", 4, Ok(()), b"new!"),
        ("post.o", 6, Ok(()), b"longer"),
        ("empty", 0, Ok(()), b""),
        ("", 4, Err(FileFault::Missing), b""),
    ];
    let mut into = Vec::from_slice(alloc, b"left over")?;
    for (name, limit, answer, bytes) in table {
        assert_eq!(rt; loaded(&mut files, name, limit, &mut into), answer);
        assert_eq!(rt; into.as_slice(), bytes);
    }
    Ok(())
}

#[test]
fn files_are_loaded_in_order_up_to_the_first_that_is_not(rt: HostRuntime) -> Result<(), Fail> {
    let alloc = rt.alloc();
    // the names, the number of the load that fails, and the bytes together, or the lost file and its fault
    let table: [([&str; 3], u64, Result<&[u8], (usize, FileFault)>); 6] = [
        (["a", "empty", "b"], 9, Ok(b"onetwo!")),
        (["b", "b", "b"], 9, Ok(b"two!two!two!")),
        (["a", "absent", "absent"], 2, Err((1, FileFault::Failed))),
        (["a", "absent", "long"], 9, Err((1, FileFault::Missing))),
        (["a", "b", "long"], 9, Err((2, FileFault::TooLong))),
        (["absent", "b", "a"], 9, Err((0, FileFault::Missing))),
    ];
    for (names, failing, answer) in table {
        let mut files = MemoryFiles::new(alloc, vec![in alloc; failing]?);
        files.put("a", b"one")?;
        files.put("b", b"two!")?;
        files.put("long", b"three")?;
        files.put("empty", b"")?;
        let wanted = names.map(|name| Wanted { name, limit: 4 });
        match (load_all(alloc, &mut files, &wanted), answer) {
            (Ok(contents), Ok(bytes)) => {
                let together = contents.concat(alloc)?;
                assert_eq!(rt; together.as_slice(), bytes);
            }
            (Err(lost), Err((index, fault))) => assert_eq!(rt; lost, Lost { index, fault }),
            (loaded, _) => assert!(rt; false, "{}", loaded.is_ok()),
        }
    }
    Ok(())
}

#[test]
fn sink_takes_a_prefix_where_it_fails(rt: HostRuntime) -> Result<(), Fail> {
    let alloc = rt.alloc();
    // the number of the write that fails, the most bytes that one takes, the answer, and what was taken
    let table: [(u64, usize, Result<(), SinkFault>, &[u8]); 6] = [
        (9, 2, Ok(()), b"one line"),
        (9, 100, Ok(()), b"one line"),
        (1, 2, Err(SinkFault::SinkFailed), b""),
        (2, 3, Err(SinkFault::SinkFailed), b"one"),
        (3, 3, Err(SinkFault::SinkFailed), b"one "),
        (9, 0, Err(SinkFault::SinkFailed), b""),
    ];
    for (failing, most, answer, bytes) in table {
        let mut out = MemorySink::new(alloc, vec![in alloc; failing]?, most);
        assert_eq!(rt; both_written(&mut out, b"one ", b"line"), answer);
        assert_eq!(rt; out.taken(), bytes);
    }
    Ok(())
}

#[test]
fn sink_goes_on_after_a_fault(rt: HostRuntime) -> Result<(), Fail> {
    let alloc = rt.alloc();
    let mut out = MemorySink::new(alloc, vec![in alloc; 2, 3]?, 2);
    assert_eq!(rt; out.write(b"abc"), Ok(2));
    assert_eq!(rt; out.write(b"c"), Err(SinkFault::SinkFailed));
    assert_eq!(rt;
        both_written(&mut out, b"", b"c"),
        Err(SinkFault::SinkFailed)
    );
    assert_eq!(rt; both_written(&mut out, b"c", b""), Ok(()));
    assert_eq!(rt; out.write(b""), Ok(0));
    assert_eq!(rt; out.taken(), b"abc".as_slice());
    Ok(())
}
