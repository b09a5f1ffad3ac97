//! A filter text, token by token. Nothing is copied: a token is a part of the text.

ghost use Rattle.std.specs.Prelude.{◌≡◌, ◌≤◌, [], ◌∷◌, List, MatchOption, length, not, position};
ghost use Rattle.std.specs.List.{position_or_len};
ghost use Rattle.pcef_filter.specs.Tokens.{Token, is_blank, tokens};

use std::marker::Model;

/// Whether an octet separates tokens.
fn is_between(octet: u8) -> bool
    ensures { result ≡ is_blank octet }
{
    matches!(octet, b' ' | b'\t')
}

/// How many blanks stand in front, where anything follows them.
fn blanks_before(text: &[u8]) -> Option<usize>
    ensures { result ≡ position (λ octet. not (is_blank octet)) text.now }
{
    text.iter().position(|octet| !is_between(*octet))
}

/// How many octets stand before the first blank.
fn filled_len(text: &[u8]) -> usize
    ensures first { result ≡ position_or_len is_blank text.now }
    ensures within { result ≤ length text.now }
{
    for (i, octet) in text.iter().enumerate() {
        if is_between(*octet) {
            return i;
        }
    }
    text.len()
}

/// The first token of a text, and the text behind it.
#[tactic(auto, using(crate::proofs::TokenLaws::no_token, crate::proofs::TokenLaws::first_token))]
fn split_token(text: &[u8]) -> Option<(&[u8], &[u8])>
    ensures { MatchOption result (tokens text.now ≡ [])
        (λ split. tokens text.now ≡ split.0.now ∷ tokens split.1.now) }
{
    let Some(start) = blanks_before(text) else {
        return None;
    };
    let filled = &text[start..];
    Some(filled.split_at(filled_len(filled)))
}

/// The tokens of a text that aren't read yet. Contracts see it as their list.
#[derive(Drop)]
pub struct Tokens<'a> {
    text: &'a [u8],
}

impl<'a> Model for Tokens<'a> {
    ghost Value = { List Token };

    ghost view = { λ self. tokens self.text.now };
}

impl<'a> Tokens<'a> {
    /// All tokens of a text.
    pub(crate) fn new(text: &'a str) -> Self
        ensures { result ≡ tokens text.now }
    {
        Tokens {
            text: text.as_bytes(),
        }
    }

    /// Takes the next token.
    pub(crate) fn next(&mut self) -> Option<&'a [u8]>
        ensures { MatchOption result ((self.old ≡ []) × (self.new ≡ []))
            (λ token. self.old ≡ token.now ∷ self.new) }
    {
        let Some((token, rest)) = split_token(self.text) else {
            return None;
        };
        self.text = rest;
        Some(token)
    }
}
