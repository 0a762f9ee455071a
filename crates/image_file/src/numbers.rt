//! Numbers and bytes at an offset of the file.
ghost use Rattle.std.specs.Prelude.{◌≡◌, ◌≤◌, ◌+◌, ◌<◌, ◌^◌, IfOk, length};
ghost use Rattle.ks_base.specs.Gives.{Gives};
ghost use Rattle.image_file.specs.Fields.{content_at, number_at, field};
ghost use Rattle.image_file.specs.Rules.{no_rules, count_rules};

use ks_base::{ImageFault, Refusal};

/// So many bytes at an offset.
#[tactic(auto, unfolding(crate::specs::Fields::content_at))]
pub(crate) fn content_of(bytes: &[u8], offset: u32, count: u32) -> Result<&[u8], Refusal>
    requires { offset + count < 2 ^ 32 }
    ensures exact { Gives (λ content. content.now) result (content_at bytes.now offset count) }
    ensures long { IfOk result (λ content. length content.now ≡ count) }
{
    let start = offset as usize;
    let end = start + count as usize;
    if bytes.len() < end {
        return Err(Refusal::BadImage(bytes.len() as u32, ImageFault::Short));
    }
    Ok(&bytes[start..end])
}

/// The number at an offset.
#[tactic(auto, unfolding(crate::specs::Fields::number_at))]
pub(crate) fn number_of(bytes: &[u8], offset: u32) -> Result<u32, Refusal>
    requires { offset < 2 ^ 31 }
    ensures { Gives (λ n. n) result (number_at bytes.now offset) }
{
    let four = content_of(bytes, offset, 4)?;
    Ok(u32::from_le_bytes([four[0], four[1], four[2], four[3]]))
}

/// The number at an offset, which has no rules.
pub(crate) fn plain_of(bytes: &[u8], offset: u32) -> Result<u32, Refusal>
    requires { offset < 2 ^ 31 }
    ensures { Gives (λ n. n) result (field bytes.now offset no_rules) }
{
    number_of(bytes, offset)
}

/// The count at an offset, which is at most a limit.
pub(crate) fn count_of(bytes: &[u8], offset: u32, limit: u32) -> Result<u32, Refusal>
    requires { offset < 2 ^ 31 }
    ensures exact { Gives (λ n. n) result (field bytes.now offset (count_rules limit)) }
    ensures within { IfOk result (λ n. n ≤ limit) }
{
    let count = number_of(bytes, offset)?;
    if count > limit {
        return Err(Refusal::BadImage(offset, ImageFault::Limit));
    }
    Ok(count)
}
