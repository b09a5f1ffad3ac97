//! The extension headers of a GTP-U message.

ghost use Rattle.std.specs.Prelude.{◌≡◌, ◌<◌, IfErr, IfOk, Ok as DueOk, Err as DueErr, length};
ghost use Rattle.pcef_gtp.specs.Messages.{behind_extensions, past};

use crate::refusal::NotTunneled;

/// The type of the header behind the one in front, and what stands behind it.
#[tactic(auto, unfolding(crate::specs::Messages::past))]
fn past(octets: &[u8]) -> Result<(u8, &[u8]), NotTunneled>
    ensures found { IfOk result (λ found. past octets.now ≡ DueOk (found.0, found.1.now)) }
    ensures refusal { IfErr result (λ e. past octets.now ≡ DueErr e) }
    ensures shorter { IfOk result (λ found. length found.1.now < length octets.now) }
{
    let Some(&units) = octets.first() else {
        return Err(NotTunneled::Extension);
    };
    let len = usize::from(units) * 4;
    if len == 0 || octets.len() < len {
        return Err(NotTunneled::Extension);
    }
    Ok((octets[len - 1], &octets[len..]))
}

/// What stands behind the headers in front, the first of which has this type; 0 is the type of none.
pub(crate) fn behind_extensions(first: u8, octets: &[u8]) -> Result<&[u8], NotTunneled>
    ensures behind { IfOk result (λ o. behind_extensions first octets.now ≡ DueOk o.now) }
    ensures refusal { IfErr result (λ e. behind_extensions first octets.now ≡ DueErr e) }
{
    let mut kind = first;
    let mut rest = octets;
    'headers: while kind != 0 {
        match past(rest) {
            Ok((next, behind)) => {
                kind = next;
                rest = behind;
            }
            Err(refusal) => return Err(refusal),
        }
    }
    Ok(rest)
}
