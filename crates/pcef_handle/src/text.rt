//! Texts in a caller's buffer.

ghost use Rattle.std.specs.Prelude.{◌≡◌};
ghost use Rattle.pcef_handle.specs.Answering.{CopiesFront};

/// Writes as much of a text as fits to the front of a buffer, and returns the text's length in octets. Takes no memory.
pub fn copy_front(text: &[u8], buffer: &mut [u8]) -> usize
    ensures { CopiesFront text.now buffer.old buffer.new result }
{
    let fits = text.len().min(buffer.len());
    buffer[..fits].copy_from_slice(&text[..fits]);
    text.len()
}
