//! Numbers, names and contents as the bytes of a file.
ghost use Rattle.std.specs.Prelude.{◌≡◌, ◌++◌, replicate, OnOk};
ghost use Rattle.std.specs.List.{flat_map};
ghost use Rattle.work_gen.specs.Encoding.{half, word, ended, padded};

use std::alloc::AllocError;

/// Appends the low two bytes of a number.
pub(crate) fn put_half(to: &mut Vec<u8>, n: usize) -> Result<(), AllocError>
    ensures { OnOk result (to.new.items ≡ to.old.items ++ half n) }
{
    let [first, second, ..] = n.to_le_bytes();
    to.extend_from_slice(&[first, second])
}

/// Appends the low four bytes of a number.
pub(crate) fn put_word(to: &mut Vec<u8>, n: usize) -> Result<(), AllocError>
    ensures { OnOk result (to.new.items ≡ to.old.items ++ word n) }
{
    let [first, second, third, fourth, ..] = n.to_le_bytes();
    to.extend_from_slice(&[first, second, third, fourth])
}

/// Appends numbers of two bytes each.
pub(crate) fn put_halves(to: &mut Vec<u8>, numbers: &[usize]) -> Result<(), AllocError>
    ensures { OnOk result (to.new.items ≡ to.old.items ++ flat_map half numbers.now) }
{
    for n in numbers {
        put_half(to, *n)?;
    }
    Ok(())
}

/// Appends numbers of four bytes each.
pub(crate) fn put_words(to: &mut Vec<u8>, numbers: &[usize]) -> Result<(), AllocError>
    ensures { OnOk result (to.new.items ≡ to.old.items ++ flat_map word numbers.now) }
{
    for n in numbers {
        put_word(to, *n)?;
    }
    Ok(())
}

/// Appends a byte so many times.
pub(crate) fn put_copies(to: &mut Vec<u8>, byte: u8, count: usize) -> Result<(), AllocError>
    ensures { OnOk result (to.new.items ≡ to.old.items ++ replicate count byte) }
{
    for _ in 0..count {
        to.push(byte)?;
    }
    Ok(())
}

/// Appends a name and the zero that ends it.
#[tactic(auto, using(crate::proofs::AppendLaws::append_laws))]
pub(crate) fn put_ended(to: &mut Vec<u8>, name: &[u8]) -> Result<(), AllocError>
    ensures { OnOk result (to.new.items ≡ to.old.items ++ ended name.now) }
{
    to.extend_from_slice(name)?;
    to.push(0)?;
    Ok(())
}

/// Appends bytes, and the zeros that fill them up to a multiple of 4.
#[tactic(auto, using(crate::proofs::AppendLaws::append_laws), unfolding(crate::specs::Encoding::padded))]
pub(crate) fn put_padded(to: &mut Vec<u8>, bytes: &[u8]) -> Result<(), AllocError>
    ensures { OnOk result (to.new.items ≡ to.old.items ++ padded bytes.now) }
{
    to.extend_from_slice(bytes)?;
    put_copies(to, 0, (4 - bytes.len() % 4) % 4)
}
