//! The pairs of entries of which there is one for each ordered pair of different alternatives.

ghost use Rattle.std.specs.Prelude.{◌≡◌, ◌<◌, length, slice_get, Some};

/// The pair at a place.
pub fn pair_at(pairs: &[(usize, usize)], place: u32) -> (usize, usize)
    requires { place < length pairs.now }
    ensures { slice_get pairs.now place ≡ Some result }
{
    pairs[place as usize]
}
