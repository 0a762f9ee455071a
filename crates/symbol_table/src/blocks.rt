//! Where the blocks of a list begin, each of which is in order. A list of 13 has a block of 8, one of 4 and
//! one of 1, as its length is written in binary.
ghost use Rattle.std.specs.Prelude.{◌≡◌, ◌<◌};
ghost use Rattle.symbol_table.specs.inside.Blocks.{block_begin};

/// Where the last block of the items before an index begins.
pub(crate) fn block_begin(end: usize) -> usize
    requires { 0 < end }
    ensures value { result ≡ block_begin end }
    ensures below { result < end }
{
    end - (1 << end.trailing_zeros())
}
