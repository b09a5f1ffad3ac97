//! Parts of octets, as far as these go.

ghost use Rattle.std.specs.Prelude.{◌≡◌, drop, take};

/// The first `count` octets, or all where there are fewer.
pub(crate) fn first(octets: &[u8], count: usize) -> &[u8]
    ensures { result.now ≡ take count octets.now }
{
    if octets.len() <= count {
        octets
    } else {
        octets.split_at(count).0
    }
}

/// The octets behind the first `count`, or none where there are fewer.
pub(crate) fn behind(octets: &[u8], count: usize) -> &[u8]
    ensures { result.now ≡ drop count octets.now }
{
    if octets.len() <= count {
        &[]
    } else {
        octets.split_at(count).1
    }
}
