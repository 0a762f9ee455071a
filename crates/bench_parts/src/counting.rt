//! What decoding meets in some bytes.
ghost use Rattle.std.specs.Prelude.{◌≡◌, ◌≤◌, ◌<◌, ◌+◌, ◌*◌, ◌^◌, length};
ghost use Rattle.bench_parts.specs.Meets.{Meets, MeetsIn};

use ia32_decode::decode;

/// What decoding meets.
#[derive(Clone, Copy)]
pub struct Tally {
    /// How many instructions.
    pub instructions: u64,
    /// How many bytes at which nothing decodes.
    pub undecoded: u64,
}

/// What decoding meets from start to end: it goes on after an instruction, and after a byte at which nothing decodes.
pub fn count(bytes: &[u8]) -> Tally
    ensures meets { Meets bytes.now result.instructions result.undecoded }
    ensures bound { result.instructions + result.undecoded ≤ length bytes.now }
{
    let mut tally = Tally {
        instructions: 0,
        undecoded: 0,
    };
    let mut rest = bytes;
    while !rest.is_empty() {
        match decode(rest) {
            Some(decoded) => {
                tally.instructions += 1;
                rest = &rest[decoded.length as usize..];
            }
            None => {
                tally.undecoded += 1;
                rest = &rest[1..];
            }
        }
    }
    tally
}

/// What decoding meets in so many passes.
pub fn count_times(bytes: &[u8], times: u32) -> Tally
    requires { length bytes.now < 2 ^ 32 }
    ensures { MeetsIn bytes.now times result.instructions result.undecoded }
{
    let mut total = Tally {
        instructions: 0,
        undecoded: 0,
    };
    for _ in 0..times {
        let tally = count(bytes);
        total.instructions += tally.instructions;
        total.undecoded += tally.undecoded;
    }
    total
}
