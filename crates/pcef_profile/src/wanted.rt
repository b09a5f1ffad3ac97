//! What may stand at a key of a profile, and how a message names it.

use crate::key::Key;
use crate::shape::Level;
use pcef_model::{MAX_CAPACITY, MAX_COMMANDS};
use pcef_packet::Addr;
use std::fmt::{self, Display, Formatter, Write};
use toml::Value;

/// The most rows of a journal.
pub(crate) const MAX_ROWS: u64 = 4_294_967_295;

/// What may stand at a key.
#[derive(Clone, Copy)]
pub(crate) enum Wanted {
    Address,
    Number(u64, u64),
    /// A rate in bit/s, up to this.
    Rate(u64),
    Flag,
    Kind,
    Table,
    Tables,
}

/// What may stand at a key of a table.
pub(crate) fn wanted_at(level: Level, key: Key) -> Wanted {
    match key {
        Key::Ue => Wanted::Address,
        Key::Rows => Wanted::Number(1, MAX_ROWS),
        Key::Commands => Wanted::Number(1, u64::from(MAX_COMMANDS)),
        Key::Default | Key::Capacity => Wanted::Table,
        Key::Declared => Wanted::Tables,
        Key::Qci => match level {
            Level::Declared(_) => Wanted::Number(10, 254),
            _ => Wanted::Number(0, 255),
        },
        Key::Level => Wanted::Number(1, 15),
        Key::Capability | Key::Vulnerability => Wanted::Flag,
        Key::Up | Key::Down => Wanted::Rate(MAX_CAPACITY),
        Key::Kind => Wanted::Kind,
    }
}

fn is_within(value: &Value, least: u64, most: u64) -> bool {
    match value.as_integer() {
        Some(number) if number >= 0 => least <= number as u64 && number as u64 <= most,
        _ => false,
    }
}

impl Wanted {
    /// Whether a value is what may stand there.
    pub(crate) fn is(self, value: &Value) -> bool {
        match self {
            Wanted::Address => value
                .as_str()
                .is_some_and(|text| Addr::from_text(text.as_bytes()).is_some()),
            Wanted::Number(least, most) => is_within(value, least, most),
            Wanted::Rate(most) => is_within(value, 0, most),
            Wanted::Flag => value.is_bool(),
            Wanted::Kind => value
                .as_str()
                .is_some_and(|text| text == "GBR" || text == "NON-GBR"),
            Wanted::Table => value.is_table(),
            Wanted::Tables => value.is_array(),
        }
    }
}

impl Wanted {
    /// The same in words, without the limits of a number.
    fn text(self) -> &'static str {
        match self {
            Wanted::Address => "an address in quotes, as \"10.0.0.2\" or \"2001:db8::2\",",
            Wanted::Number(_, _) => "a whole number",
            Wanted::Rate(_) => "a whole number of bit/s",
            Wanted::Flag => "true or false",
            Wanted::Kind => "\"GBR\" or \"NON-GBR\"",
            Wanted::Table => "a table",
            Wanted::Tables => "an array of tables",
        }
    }
}

impl Display for Wanted {
    fn fmt<W: Write>(&self, f: &mut Formatter<W>) -> fmt::Result {
        f.write_str(self.text())?;
        match self {
            Wanted::Number(least, most) => write!(f, " from {least} to {most}"),
            Wanted::Rate(most) => write!(f, " from 0 to {most}"),
            _ => Ok(()),
        }
    }
}

/// The longest text that is shown whole, in bytes.
const MOST_SHOWN: usize = 80;

/// Whether a text can be shown as it stands: short, and of printable ASCII alone.
pub(crate) fn is_plain(text: &str) -> bool {
    text.len() <= MOST_SHOWN
        && text
            .as_bytes()
            .iter()
            .all(|octet| b' ' <= *octet && *octet <= b'~')
}

/// A value as messages show it: a short text, a number or a flag as such, others by their kind.
#[derive(Clone, Copy)]
pub(crate) struct Shown<'a>(pub &'a Value);

/// The kind of a value, in words.
fn kind_of(value: &Value) -> &'static str {
    match value {
        Value::String(_) => "a string",
        Value::Integer(_) => "a whole number",
        Value::Boolean(_) => "a flag",
        Value::Float(_) => "a number with a point or an exponent",
        Value::Datetime(_) => "a date or a time",
        Value::Array(_) => "an array",
        Value::Table(_) => "a table",
    }
}

impl Display for Shown<'_> {
    fn fmt<W: Write>(&self, f: &mut Formatter<W>) -> fmt::Result {
        match self.0 {
            Value::String(text) if text.len() <= MOST_SHOWN => write!(f, "{:?}", text.as_str()),
            Value::Integer(number) => write!(f, "{number}"),
            Value::Boolean(flag) => write!(f, "{flag}"),
            Value::String(text) => write!(f, "a string of {} bytes", text.len()),
            value => f.write_str(kind_of(value)),
        }
    }
}
