//! The word that was meant.

use std::alloc::{AllocError, Global};
use strsim::levenshtein;

/// A text in small letters, as far as it is ASCII.
fn small(alloc: Global, text: &str) -> Result<String, AllocError> {
    text.chars()
        .map(|character| character.to_ascii_lowercase())
        .collect(alloc)
}

/// The word that is nearest to a text, if at most a third of the letters differ. The case of letters doesn't count.
/// Takes memory.
pub(crate) fn nearest<'a>(
    alloc: Global,
    text: &str,
    words: &[&'a str],
) -> Result<Option<&'a str>, AllocError> {
    let mut near = None;
    let mut least = text.len() / 3;
    if text.len() > 64 {
        return Ok(None);
    }
    let text = small(alloc, text)?;
    for word in words {
        let word = *word;
        let edits = levenshtein(alloc, text.as_str(), small(alloc, word)?.as_str())?;
        if edits <= least {
            near = Some(word);
            if edits == 0 {
                break;
            }
            least = edits - 1;
        }
    }
    Ok(near)
}
