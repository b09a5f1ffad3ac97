//! What a line may ask for.

ghost use Rattle.std.specs.Prelude.{◌≡◌};
ghost use Rattle.pcef_line.specs.LineWords.{word_of, fields_of};

use crate::field::Field;

/// A word of `do`.
#[derive(Clone, Copy, Debug, PartialEq, Eq)]
pub enum Word {
    Install,
    Activate,
    Remove,
    Monitor,
    Stop,
    Report,
    Triggers,
    Notice,
    Lose,
    Close,
    Terminate,
    Attach,
    Take,
    Refresh,
    Flush,
    Finish,
    Abandon,
    Show,
}

impl Word {
    /// The word that a text is.
    pub(crate) fn from_text(text: &str) -> Option<Word>
        ensures { result ≡ word_of text.now }
    {
        match text {
            "install" => Some(Word::Install),
            "activate" => Some(Word::Activate),
            "remove" => Some(Word::Remove),
            "monitor" => Some(Word::Monitor),
            "stop" => Some(Word::Stop),
            "report" => Some(Word::Report),
            "triggers" => Some(Word::Triggers),
            "notice" => Some(Word::Notice),
            "lose" => Some(Word::Lose),
            "close" => Some(Word::Close),
            "terminate" => Some(Word::Terminate),
            "attach" => Some(Word::Attach),
            "take" => Some(Word::Take),
            "refresh" => Some(Word::Refresh),
            "flush" => Some(Word::Flush),
            "finish" => Some(Word::Finish),
            "abandon" => Some(Word::Abandon),
            "show" => Some(Word::Show),
            _ => None,
        }
    }

    /// The fields that a line with this word may have.
    pub(crate) fn fields(self) -> &'static [Field]
        ensures { result.now ≡ fields_of self }
    {
        match self {
            Word::Install => &[Field::Do, Field::Rule],
            Word::Activate | Word::Remove => &[Field::Do, Field::Name],
            Word::Monitor => &[Field::Do, Field::Key, Field::Grant, Field::Level],
            Word::Stop | Word::Report => &[Field::Do, Field::Key],
            Word::Triggers => &[Field::Do, Field::Events],
            Word::Notice => &[Field::Do, Field::Event, Field::Value],
            Word::Lose => &[Field::Do, Field::Bearer],
            Word::Close | Word::Terminate | Word::Attach | Word::Show => &[Field::Do],
            Word::Take => &[Field::Do, Field::Worker, Field::Dir, Field::Packet],
            Word::Refresh | Word::Flush | Word::Finish | Word::Abandon => {
                &[Field::Do, Field::Worker]
            }
        }
    }
}
