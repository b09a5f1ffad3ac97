//! Reads the lines that are nearly all of a script, `take`, `refresh` and `flush`, in one pass over their text.

ghost use Rattle.std.specs.Prelude.{◌≡◌, IfSome, Some, option_map};
ghost use Rattle.json.specs.Lex.{tokens};
ghost use Rattle.json.specs.Reads.{token_of};
ghost use Rattle.serde_json.specs.Data.{number, object, put, string};
ghost use Rattle.serde_json.specs.Read.{number_of};
ghost use Rattle.pcef_line.specs.LineValues.{Gives};
ghost use Rattle.pcef_filter.specs.Reading.{reading_of};
ghost use Rattle.pcef_line.specs.LineOf.{line_at, line_by};
ghost use Rattle.pcef_line.specs.ShortLines.{found_in, plain_of, read_tokens, taken};

use crate::fault::LineFault;
use crate::field::Field;
use crate::line::Line;
use crate::spelling::{canonical_line, worker_of};
use crate::values::{dir_of, packet_of};
use json::{Reader, Scratch, Token};
use pcef_model::Step;

/// The fields that were read of a line that has no others. Of one that stands twice the last value counts.
#[derive(Clone, Copy)]
pub struct Fields<'a> {
    word: Option<&'a str>,
    worker: Option<u8>,
    dir: Option<&'a str>,
    packet: Option<&'a str>,
}

/// The fields with a text more, if one of them has this name.
fn keep_text<'a>(fields: Fields<'a>, key: &str, text: &'a str) -> Option<Fields<'a>>
    ensures { IfSome result (λ f.
        put key.now (string text.now) (found_in fields.entry) ≡ found_in f) }
{
    match key {
        "do" => Some(Fields {
            word: Some(text),
            ..fields
        }),
        "dir" => Some(Fields {
            dir: Some(text),
            ..fields
        }),
        "packet" => Some(Fields {
            packet: Some(text),
            ..fields
        }),
        _ => None,
    }
}

/// The fields with a number more, if it's a worker's and written as is usual.
fn keep_number<'a>(fields: Fields<'a>, key: &str, text: &str) -> Option<Fields<'a>>
    ensures { IfSome result (λ f.
        option_map (λ n. put key.now (number n) (found_in fields.entry)) (number_of text.now)
        ≡ Some (found_in f)) }
{
    match key {
        "worker" => {
            let worker = worker_of(text)?;
            Some(Fields {
                worker: Some(worker),
                ..fields
            })
        }
        _ => None,
    }
}

/// The fields with a member more, if it's one of them and of the usual kind.
fn keep<'a>(fields: Fields<'a>, key: &str, token: Token<'a>) -> Option<Fields<'a>>
    ensures { IfSome result (λ f.
        option_map (λ d. put key.now d (found_in fields.entry)) (plain_of (token_of token.entry))
        ≡ Some (found_in f)) }
{
    match token {
        Token::String(text) => keep_text(fields, key, text),
        Token::Number(text) => keep_number(fields, key, text),
        _ => None,
    }
}

/// The fields of the object that the tokens are, if it has no others and each is of the usual kind.
fn fields_of<'a>(reader: &mut Reader<'a>) -> Option<Fields<'a>>
    ensures { IfSome result (λ f. read_tokens reader.old ≡ Some (object (found_in f))) }
{
    let Some(Token::BeginObject) = reader.next() else {
        return None;
    };
    let mut fields = Fields {
        word: None,
        worker: None,
        dir: None,
        packet: None,
    };
    'members: while let Some(key) = reader.next_key().ok()? {
        let token = reader.next()?;
        fields = keep(fields, key, token)?;
    }
    if reader.next().is_some() {
        return None;
    }
    Some(fields)
}

fn take(octets: &mut Vec<u8>, worker: u8, dir: &str, packet: &str) -> Result<Line, LineFault>
    ensures { Gives (λ l. l) result (taken dir.now packet.now worker) }
{
    let dir = dir_of(dir, Field::Dir)?;
    let header = packet_of(octets, packet, Field::Packet, dir)?;
    Ok(Line::Step(Step::Take { worker, header }))
}

fn line_of(octets: &mut Vec<u8>, fields: Fields<'_>) -> Option<Result<Line, LineFault>>
    ensures { IfSome result
        (λ r. Gives (λ l. l) r (line_at reading_of (object (found_in fields.entry)))) }
{
    let worker = fields.worker?;
    if worker > 15 {
        return None;
    }
    match (fields.word?, fields.dir, fields.packet) {
        ("take", Some(dir), Some(packet)) => Some(take(octets, worker, dir, packet)),
        ("refresh", None, None) => Some(Ok(Line::Step(Step::Refresh { worker }))),
        ("flush", None, None) => Some(Ok(Line::Step(Step::Flush { worker }))),
        _ => None,
    }
}

/// What [`crate::read_line`] answers to a text that is such a line, written as is usual. The octets of its packet are
/// left in `octets`.
pub(crate) fn short_line(
    text: &str,
    scratch: &mut Scratch,
    octets: &mut Vec<u8>,
) -> Option<Result<Line, LineFault>>
    ensures { IfSome result (λ r. Gives (λ l. l) r (line_by reading_of text.now)) }
{
    if let Some(line) = canonical_line(text, octets) {
        return Some(Ok(line));
    }
    let mut reader = Reader::new(text, scratch).ok()?;
    line_of(octets, fields_of(&mut reader)?)
}
