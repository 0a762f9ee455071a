//! A listing, and one of several pages.
use code_listing::list_code;
use image_file::read_image;
use ks_base::{Name, Refusal};
use std::alloc::Global;
use std::test::Fail;

// A region of 16,384 bytes, and what follows them: a function at its base.
const LONG_FRONT: [u8; 36] = [
    0x4b, 0x49, 0x4d, 0x31, 1, 0, 0, 0, 1, 0, 0, 0, 0, 0, 0, 0, 0, 0, 0, 0, 0, 0, 0, 0, 1, 0, 0, 0,
    0, 0, 0x10, 0, 0, 0x40, 0, 0,
];

const LONG_SYMBOL: [u8; 17] = [0, 0, 0x10, 0, 1, 0, 0, 0, 1, 0, 0, 0, 1, 0, 0, 0, b'f'];

const LONG_LENGTH: usize = 0x4000;

/// The bytes of a function's listing, and how many pages they came in.
fn listed(alloc: Global, image: &[u8], name: &[u8]) -> Result<(Vec<u8>, u32), Refusal> {
    let image = read_image(alloc, image)?;
    let name = Name::from_slice(alloc, name)?;
    let mut listing = list_code(alloc, image, &name)?;
    let mut text = Vec::new(alloc);
    for pages in 0..100 {
        let page = listing.next_page(alloc)?;
        if page.bytes().is_empty() {
            return Ok((text, pages));
        }
        text.extend_from_slice(page.bytes())?;
    }
    Ok((text, 100))
}

/// `f` in a region: a `mov`, a `ret` and padding.
const SHORT: &[u8] = b"KIM1\x01\0\0\0\x01\0\0\0\0\0\0\0\0\0\0\0\0\0\0\0\
    \x01\0\0\0\0\0\x10\0\x08\0\0\0\xb8\x01\0\0\0\xc3\x66\x90\
    \0\0\x10\0\x01\0\0\0\x01\0\0\0\x01\0\0\0f";

const LISTING: &str =
    "0x00100000 5 b8 01 00 00 00\n0x00100005 1 c3\n0x00100006 2 66 90 padding\nend 0x00100008\n";

#[test]
fn a_listing(rt: HostRuntime) -> Result<(), Fail> {
    let (text, pages) = listed(rt.alloc(), SHORT, b"f").ok().ok_or("refused")?;
    assert!(rt; text.as_slice() == LISTING.as_bytes() && pages == 1);
    Ok(())
}

/// An image with a function of so many bytes that are padding.
fn long_image(alloc: Global) -> Result<Vec<u8>, Fail> {
    let mut image = Vec::from_slice(alloc, &LONG_FRONT)?;
    image.resize(LONG_FRONT.len() + LONG_LENGTH, 0x90)?;
    image.extend_from_slice(&LONG_SYMBOL)?;
    Ok(image)
}

/// 16,384 lines of 24 bytes and one of 15; a page is full after 2,731 of them.
#[test]
fn several_pages(rt: HostRuntime) -> Result<(), Fail> {
    let image = long_image(rt.alloc())?;
    let (text, pages) = listed(rt.alloc(), image.as_slice(), b"f")
        .ok()
        .ok_or("refused")?;
    assert!(rt; text.len() == 24 * 16_384 + 15 && pages == 6);
    Ok(())
}
