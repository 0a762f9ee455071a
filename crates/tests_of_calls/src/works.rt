//! The works of three numbers, against lengths and bytes that were worked out by hand.
use std::alloc::{AllocError, Global};
use std::test::Fail;
use work_gen::{Work, make_work};

/// Bytes at an offset of a file.
type At = (usize, &'static [u8]);

/// Of a work: how long its image and its objects are, and bytes of its image, its first object and its second.
type Known = ([usize; 2], &'static [At], &'static [At], &'static [At]);

/// The script has 108 bytes for each update, and then 88.
static SCRIPT: [At; 4] = [
    (
        0,
        b"spawn f0 0\nspawn f0 0\nspawn f0 0\nspawn f0 0\nrr 1 100\napply u0 pre.o post.o tries 16 gap 4096\n",
    ),
    (
        93,
        b"rr 64 16777216\nspawn f0 0\nspawn f0 0\nspawn f0 0\nspawn f0 0\nrr 1 100\napply u1 post.o pre.o tries 16 ",
    ),
    (
        809,
        b"apply u7 post.o pre.o tries 16 gap 4096\nrr 64 16777216\nundo\nundo\nundo\nspawn f0 0\nspawn f0 0\n",
    ),
    (923, b"rr 64 16777216\nthreads\nwatch\n"),
];

/// Of 0, with 16 functions: the counts and the arena, the region, `f0` and `f15`, the symbols of `f0`, the stacks; of the
/// objects the header, the code of `f0` and `f1`, relocations, symbols and names, and the header of section 1.
static OF_0: Known = (
    [874, 2724],
    &[
        (0, b"KIM1\x01\0\0\0\x10\0\0\0\x04\0\0\0\0\0\x80\0\0\0\x90\0"),
        (24, b"\x01\0\0\0\0\0\x10\0\0\x02\0\0"),
        (36, b"\x05\0\0\0\0\xe8\x16\0\0\0\xc3\x90\x90"),
        (516, b"\x05\0\0\0\0\xc3\x90\x90"),
        (
            548,
            b"\0\0\x10\0\x01\0\0\0\x01\0\0\0\x02\0\0\0f0\x20\0\x10\0",
        ),
        (842, b"\0\0\x40\0\0\0\x41\0\0\0\x42\0\0\0\x43\0"),
    ],
    &[(
        52,
        b"\x05\0\0\0\0\xe8\xfc\xff\xff\xff\xc3\0\x05\0\0\0\0\xe8",
    )],
    &[
        (
            0,
            b"\x7fELF\x01\x01\x01\0\0\0\0\0\0\0\0\0\x01\0\x03\0\x01\0\0\0",
        ),
        (32, b"\x2c\x05\0\0\0\0\0\0\x34\0\0\0\0\0\x28\0\x23\0\x22\0"),
        (
            52,
            b"\x05\0\0\0\0\xe8\xfc\xff\xff\xff\xc3\0\x05\x01\0\0\0\xe8",
        ),
        (240, b"\x06\0\0\0\x02\x02\0\0\x06\0\0\0\x02\x03\0\0"),
        (376, b"\0\0\0\0\0\0\0\0\0\0\0\0\x03\0\x01\0"),
        (632, b"\x01\0\0\0\0\0\0\0\x0b\0\0\0\x12\0\x01\0\x04\0\0\0"),
        (888, b"\0f0\0f1\0"),
        (944, b"\0.text.f0\0"),
        (
            1364,
            b"\x01\0\0\0\x01\0\0\0\x06\0\0\0\0\0\0\0\x34\0\0\0\x0b\0\0\0\0\0\0\0\0\0\0\0\x10\0\0\0\0\0\0\0",
        ),
    ],
);

/// Of 1, with 17 functions: the same where it differs.
static OF_1: Known = (
    [925, 2884],
    &[
        (24, b"\x01\0\0\0\0\0\x10\0\x20\x02\0\0"),
        (36, b"\x05\x01\0\0\0\xe8\x16\0\0\0\xc3\x90\x90"),
        (68, b"\x05\x02\0\0\0\xe8\x16\0\0\0\xc3\x90\x90"),
        (548, b"\x05\x11\0\0\0\xc3\x90\x90"),
    ],
    &[(
        52,
        b"\x05\x01\0\0\0\xe8\xfc\xff\xff\xff\xc3\0\x05\x02\0\0\0\xe8",
    )],
    &[
        (32, b"\x7c\x05\0\0\0\0\0\0\x34\0\0\0\0\0\x28\0\x25\0\x24\0"),
        (
            52,
            b"\x05\x01\0\0\0\xe8\xfc\xff\xff\xff\xc3\0\x05\x03\0\0\0\xe8",
        ),
    ],
);

/// Of the largest number, with 166 functions, whose constants are 65,535 less their places: the region, the code of `f0`,
/// `f1` and `f165`, the stacks; of the objects the code of the first functions, of which `f1` and `f5` are raised.
static OF_LARGEST: Known = (
    [8590, 26920],
    &[
        (24, b"\x01\0\0\0\0\0\x10\0\xc0\x14\0\0"),
        (36, b"\x05\xff\xff\0\0\xe8\x16\0\0\0\xc3\x90\x90"),
        (68, b"\x05\xfe\xff\0\0\xe8\x16\0\0\0\xc3"),
        (5316, b"\x05\x5a\xff\0\0\xc3\x90\x90"),
        (
            8558,
            b"\0\0\x40\0\0\0\x41\0\0\0\x42\0\0\0\x43\0\0\0\x44\0\0\0\x45\0\0\0\x46\0\0\0\x47\0",
        ),
    ],
    &[
        (52, b"\x05\xff\xff\0\0\xe8"),
        (64, b"\x05\xfe\xff\0\0\xe8"),
        (76, b"\x05\xfd\xff\0\0\xe8"),
    ],
    &[
        (52, b"\x05\xff\xff\0\0\xe8"),
        (64, b"\x05\xff\xff\0\0\xe8"),
        (76, b"\x05\xfd\xff\0\0\xe8"),
        (88, b"\x05\xfc\xff\0\0\xe8"),
        (100, b"\x05\xfb\xff\0\0\xe8"),
        (112, b"\x05\xfb\xff\0\0\xe8"),
    ],
);

/// Whether a file has all of these bytes.
fn has_all(file: &[u8], known: &[At]) -> bool {
    for (offset, bytes) in known {
        match file.get(*offset..) {
            Some(rest) if rest.starts_with(bytes) => {}
            _ => return false,
        }
    }
    true
}

/// Whether a work is as it is known.
fn is_as_known(work: &Work, known: &Known) -> bool {
    let (lengths, image, pre, post) = known;
    let [image_length, object_length] = *lengths;
    work.image.len() == image_length
        && work.pre.len() == object_length
        && work.post.len() == object_length
        && work.script.len() == 952
        && has_all(work.image.as_slice(), image)
        && has_all(work.pre.as_slice(), pre)
        && has_all(work.post.as_slice(), post)
        && has_all(work.script.as_slice(), &SCRIPT)
}

/// Whether the work of a number is as it is known.
fn is_made_as_known(alloc: Global, number: u32, known: &Known) -> Result<bool, AllocError> {
    let work = make_work(alloc, number)?;
    Ok(is_as_known(&work, known))
}

#[test]
fn works_of_three_numbers(rt: HostRuntime) -> Result<(), Fail> {
    let of_0 = is_made_as_known(rt.alloc(), 0, &OF_0)?;
    let of_1 = is_made_as_known(rt.alloc(), 1, &OF_1)?;
    let of_largest = is_made_as_known(rt.alloc(), 4_294_967_295, &OF_LARGEST)?;
    assert!(rt; of_0 && of_1 && of_largest);
    Ok(())
}
