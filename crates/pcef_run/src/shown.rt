//! What the arguments ask of the program itself.

ghost use Rattle.std.specs.Prelude.{◌≡◌, false, true};
ghost use Rattle.pcef_run.specs.declared.end.End.TheVariants.{Usage};
ghost use Rattle.pcef_run.specs.Ends.{end_text};
ghost use Rattle.pcef_run.specs.Showing.{is_command_word, is_help_word, is_version_word, shown_by, shown_line};

use crate::end::{USAGE, USAGE_NOTE};
use pcef_base::VERSION_LINE;

/// A text that the program shows of itself.
#[derive(Clone, Copy, Debug, PartialEq, Eq)]
pub enum Shown {
    /// What the program does, as below a mistake in its words.
    Help,
    /// Its version.
    Version,
}

fn is_help_word(word: &[u8]) -> bool
    ensures { result ≡ is_help_word word.now }
{
    word == b"--help".as_slice() || word == b"-h".as_slice()
}

fn is_version_word(word: &[u8]) -> bool
    ensures { result ≡ is_version_word word.now }
{
    word == b"--version".as_slice() || word == b"-V".as_slice()
}

fn is_command_word(word: &[u8]) -> bool
    ensures { result ≡ is_command_word word.now }
{
    word == b"script".as_slice() || word == b"run".as_slice() || word == b"pool".as_slice()
}

/// The text that the arguments ask for, if they do: help where the first is `--help` or `-h`, or where that stands behind
/// a command; the version where the first is `--version` or `-V`. Whatever stands behind is passed over.
pub fn shown_by(words: &[Vec<u8>]) -> Option<Shown>
    ensures { result ≡ shown_by words.now }
{
    match words {
        [word, ..] if is_help_word(word.as_slice()) => Some(Shown::Help),
        [word, ..] if is_version_word(word.as_slice()) => Some(Shown::Version),
        [word, next, ..] if is_command_word(word.as_slice()) && is_help_word(next.as_slice()) => {
            Some(Shown::Help)
        }
        _ => None,
    }
}

impl Shown {
    /// Its first line. That of the help is the usage.
    pub fn line(self) -> &'static str
        ensures { result.now ≡ shown_line self }
    {
        match self {
            Shown::Help => USAGE,
            Shown::Version => VERSION_LINE,
        }
    }

    /// What stands below that line, for people: lines, or nothing.
    pub fn note(self) -> &'static str {
        match self {
            Shown::Help => USAGE_NOTE,
            Shown::Version => "",
        }
    }
}
