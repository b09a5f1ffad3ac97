//! Whether two lists of rules are equal.

ghost use Rattle.std.specs.Prelude.{◌≡◌, ◌↔◌, IsTrue};

use pcef_table::Source;

/// Whether two rules are equal and of the same kind.
pub(crate) fn is_equal(a: &Source, b: &Source) -> bool
    ensures { IsTrue result ↔ (a.now ≡ b.now) }
{
    match (a, b) {
        (Source::Dynamic(a), Source::Dynamic(b)) => a.is_equal(b),
        (Source::Predefined(a), Source::Predefined(b)) => *a == *b,
        _ => false,
    }
}

/// Whether two lists of rules are equal.
pub(crate) fn are_equal(a: &[Source], b: &[Source]) -> bool
    ensures { IsTrue result ↔ (a.now ≡ b.now) }
{
    if a.len() != b.len() {
        return false;
    }
    for place in 0..a.len() {
        if !is_equal(&a[place], &b[place]) {
            return false;
        }
    }
    true
}
