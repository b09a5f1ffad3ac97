//! Text in a page.

ghost use Rattle.std.specs.Prelude.{◌≡◌, ◌<◌, ◌++◌, ◌∷◌, [], IfNone, MatchOption, OnOk, string_bytes};
ghost use Rattle.pcef_page.specs.Escaping.{escaped, escaped_octet};

use std::alloc::AllocError;

/// The escape of an octet that can't stand in a page as it is.
fn stand_in(octet: u8) -> Option<&'static str>
    ensures text { MatchOption result (escaped_octet octet ≡ octet ∷ [])
        (λ text. escaped_octet octet ≡ text.now) }
    ensures ascii { IfNone result (octet < 128) }
{
    match octet {
        b'<' => Some("&lt;"),
        b'>' => Some("&gt;"),
        b'&' => Some("&amp;"),
        b'"' => Some("&quot;"),
        b'\'' => Some("&#39;"),
        b' '..=b'~' => None,
        _ => Some("?"),
    }
}

/// Adds an octet of a text to a page, or what stands there for it.
fn push_octet(page: &mut String, octet: u8) -> Result<(), AllocError>
    ensures { OnOk result (string_bytes page.new ≡ string_bytes page.old ++ escaped_octet octet) }
{
    match stand_in(octet) {
        Some(other) => page.push_str(other),
        None => page.push(char::from(octet)),
    }
}

/// Adds a text to a page, so that none of its octets begins or ends a tag, an attribute or an entity. Other characters
/// than printable ASCII stand there as `?`.
pub(crate) fn push_text(page: &mut String, text: &str) -> Result<(), AllocError>
    ensures { OnOk result (string_bytes page.new ≡ string_bytes page.old ++ escaped text.now) }
{
    for octet in text.as_bytes() {
        push_octet(page, *octet)?;
    }
    Ok(())
}
