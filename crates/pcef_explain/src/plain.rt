//! Text that can be shown as it stands.

ghost use Rattle.std.specs.Prelude.{IfOk, string_bytes};
ghost use Rattle.pcef_explain.specs.Plain.{IsPlain};

use std::alloc::{AllocError, Global};

/// A text with `?` in the place of each octet that is no printable ASCII. Takes memory for it.
pub fn plain_text(alloc: Global, text: &str) -> Result<String, AllocError>
    ensures { IfOk result (λ plain. IsPlain (string_bytes plain)) }
{
    let mut plain = String::new(alloc);
    for octet in text.as_bytes() {
        let octet = *octet;
        if b' ' <= octet && octet <= b'~' {
            plain.push(char::from(octet))?;
        } else {
            plain.push('?')?;
        }
    }
    Ok(plain)
}
