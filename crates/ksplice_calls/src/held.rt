//! The bytes of files that were held.
ghost use Rattle.std.specs.Prelude.{◌≡◌, ◌∷◌, [], length};
ghost use Rattle.ks_io.specs.Loads.{bytes_of};

/// Takes two files apart that were held together.
pub(crate) fn two_files(mut held: Vec<Vec<u8>>) -> (Vec<u8>, Vec<u8>)
    requires { length held.items ≡ 2 }
    ensures { bytes_of held.items ≡ result.0.items ∷ result.1.items ∷ [] }
{
    let other = held.pop().unwrap();
    let one = held.pop().unwrap();
    (one, other)
}
