//! The pieces of a token, cut off one by one.

ghost use Rattle.std.specs.Prelude.{◌≡◌, ◌∷◌, ◌<◌, ◌≤◌, ◌==◌, IfSome, length};
ghost use Rattle.std.specs.List.{position_or_len};
ghost use Rattle.pcef_filter.specs.Pieces.{pieces};
ghost use Rattle.pcef_filter.specs.ReadingClasses.{pieces_left};

/// How many octets stand before the first separator.
fn first_len(token: &[u8], separator: u8) -> usize
    ensures first { result ≡ position_or_len (λ octet. octet == separator) token.now }
    ensures within { result ≤ length token.now }
{
    for (i, octet) in token.iter().enumerate() {
        if *octet == separator {
            return i;
        }
    }
    token.len()
}

/// The first piece, and what stands behind its separator, where it has one.
pub(crate) fn cut(token: &[u8], separator: u8) -> (&[u8], Option<&[u8]>)
    ensures pieces { pieces separator token.now ≡ result.0.now ∷ pieces_left separator result.1 }
    ensures some_left { IfSome result.1 (λ left. 0 < length (pieces separator left.now)) }
    ensures shorter { IfSome result.1 (λ left. length left.now < length token.now) }
{
    let len = first_len(token, separator);
    if len == token.len() {
        return (token, None);
    }
    (&token[..len], Some(&token[len + 1..]))
}
