//! Which base is the newest of each home.
ghost use Rattle.std.specs.Prelude.{◌≡◌, ℕ, nat_eq};
ghost use Rattle.std.specs.List.{IsDistinct};
ghost use Rattle.std.specs.List.Sorted.{IsNonDecreasingBy, IsPermutation};
ghost use Rattle.symbol_table.specs.Bodies.{newest, home_of, homes};

use std::marker::Model;

/// The newest base of each home that has one. A clause sees it as the list of its rows, each a home and
/// the base, in ascending order of the homes.
#[derive(Drop)]
pub struct Bodies {
    rows: Vec<(u32, u32)>,
}

impl Model for Bodies {
    ghost use Rattle.std.specs.Prelude.{ℕ, List};

    ghost Value = { List (ℕ × ℕ) };

    ghost view = { λ b. b.rows.items };

    ghost use Rattle.std.specs.List.Sorted.{IsNonDecreasingBy};
    ghost use Rattle.symbol_table.specs.Bodies.{home_of};

    ghost invariant = { λ b. IsNonDecreasingBy home_of b.rows.items };
}

impl Bodies {
    /// The newest bases of rows, each a home and the base, in any order. It takes no memory.
    pub fn new(rows: Vec<(u32, u32)>) -> Self
        requires { IsDistinct nat_eq (homes rows.items) }
        ensures rows { IsPermutation rows.items result }
        ensures newest { (home : ℕ) → newest result home ≡ newest rows.items home }
    {
        Bodies {
            rows: by_home(rows),
        }
    }

    /// The newest base of a home, or the home itself where it has no row. It takes no memory.
    pub fn newest(&self, home: u32) -> u32
        ensures { result ≡ newest self.now home }
    {
        newest_of(self.rows.as_slice(), home)
    }
}

/// Rows in ascending order of the homes.
fn by_home(mut rows: Vec<(u32, u32)>) -> Vec<(u32, u32)>
    ensures same { IsPermutation rows.items result.items }
    ensures rise { IsNonDecreasingBy home_of result.items }
{
    rows.sort_unstable_by_key(|row| row.0);
    rows
}

/// The newest base of a home, of rows in ascending order of the homes.
fn newest_of(rows: &[(u32, u32)], home: u32) -> u32
    requires { IsNonDecreasingBy home_of rows.now }
    ensures { result ≡ newest rows.now home }
{
    let index = rows.partition_point(|row| row.0 < home);
    if index < rows.len() && rows[index].0 == home {
        rows[index].1
    } else {
        home
    }
}
