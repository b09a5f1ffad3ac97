//! Texts, cut in two.

ghost use Rattle.std.specs.Prelude.{◌≡◌, MatchOption, None, Some, option_map};
ghost use Rattle.pcef_packet.specs.AddressTexts.{cut_at};

/// What stands before and after the first of these octets.
#[tactic(auto, unfolding(crate::specs::AddressTexts::cut_at))]
pub(crate) fn cut_at(text: &[u8], separator: u8) -> Option<(&[u8], &[u8])>
    ensures cut { option_map (λ parts. (parts.0.now, parts.1.now)) result ≡ cut_at separator text.now }
    ensures parts { MatchOption result (cut_at separator text.now ≡ None)
        (λ parts. cut_at separator text.now ≡ Some (parts.0.now, parts.1.now)) }
{
    for (i, octet) in text.iter().enumerate() {
        if *octet == separator {
            return Some((&text[..i], &text[i + 1..]));
        }
    }
    None
}
