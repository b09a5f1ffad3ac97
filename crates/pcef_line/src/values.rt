//! The values of fields.

ghost use Rattle.std.specs.Prelude.{◌≡◌, ◌≤◌, IfOk};
ghost use Rattle.serde_json.specs.View.{view, items_view};
ghost use Rattle.hex.specs.Hex.{decode_of};
ghost use Rattle.pcef_line.specs.declared.fault.LineFault.TheVariants.{BadField, BadHex, BadName};
ghost use Rattle.pcef_base.specs.Readings.{or_fault, passing, under};
ghost use Rattle.pcef_line.specs.ShortLines.{packet_of};
ghost use Rattle.pcef_line.specs.LineValues.{Gives, member_at, object_at, list_at, text_at, number_at, flag_at, is_name, name_at, dir_of, dir_at, packet_at};

use crate::fault::LineFault;
use crate::field::Field;
use crate::octets::decode;
use pcef_packet::{Dir, Header, read_header};
use pcef_rule::Name;
use serde_json::Value;
use std::alloc::Global;

/// The value of a field. A fault names the field itself, or the one whose object it stands in.
#[tactic(auto, unfolding(crate::specs::LineValues::member_at))]
pub(crate) fn member(object: &Value, field: Field, reported: Field) -> Result<&Value, LineFault>
    ensures { Gives (λ v. view v.now) result (member_at field reported (view object.now)) }
{
    match object.get(field.text()) {
        Some(value) => Ok(value),
        None => Err(LineFault::MissingField(reported)),
    }
}

/// A field's object.
#[tactic(auto, unfolding(crate::specs::LineValues::object_at))]
pub(crate) fn object_field(object: &Value, field: Field) -> Result<&Value, LineFault>
    ensures { Gives (λ v. view v.now) result (object_at field (view object.now)) }
{
    let value = member(object, field, field)?;
    if !value.is_object() {
        return Err(LineFault::BadField(field));
    }
    Ok(value)
}

/// A field's list.
#[tactic(auto, unfolding(crate::specs::LineValues::list_at))]
pub(crate) fn list_field(object: &Value, field: Field) -> Result<&[Value], LineFault>
    ensures { Gives (λ vs. items_view vs.now) result (list_at field (view object.now)) }
{
    match member(object, field, field)?.as_array() {
        Some(list) => Ok(list.as_slice()),
        None => Err(LineFault::BadField(field)),
    }
}

/// A field's text.
#[tactic(auto, unfolding(crate::specs::LineValues::text_at))]
pub(crate) fn text_field(object: &Value, field: Field, reported: Field) -> Result<&str, LineFault>
    ensures { Gives (λ t. t.now) result (text_at field reported (view object.now)) }
{
    match member(object, field, reported)?.as_str() {
        Some(text) => Ok(text),
        None => Err(LineFault::BadField(reported)),
    }
}

/// A field's whole number, from `least` to `most`.
#[tactic(auto, unfolding(crate::specs::LineValues::number_at))]
pub(crate) fn number_field(
    object: &Value,
    field: Field,
    reported: Field,
    least: u64,
    most: u64,
) -> Result<u64, LineFault>
    ensures exact { Gives (λ n. n) result (number_at field reported least most (view object.now)) }
    ensures least { IfOk result (λ n. least ≤ n) }
    ensures most { IfOk result (λ n. n ≤ most) }
{
    match member(object, field, reported)?.as_u64() {
        Some(number) if least <= number && number <= most => Ok(number),
        _ => Err(LineFault::BadField(reported)),
    }
}

/// A field's truth value.
#[tactic(auto, unfolding(crate::specs::LineValues::flag_at))]
pub(crate) fn flag_field(object: &Value, field: Field, reported: Field) -> Result<bool, LineFault>
    ensures { Gives (λ b. b) result (flag_at field reported (view object.now)) }
{
    match member(object, field, reported)?.as_bool() {
        Some(flag) => Ok(flag),
        None => Err(LineFault::BadField(reported)),
    }
}

fn name_of<K>(text: &str, field: Field) -> Result<Name<K>, LineFault>
    ensures { Gives (λ n. n) result (passing is_name (BadName field) text.now) }
{
    match Name::new(text) {
        Ok(name) => Ok(name),
        Err(_) => Err(LineFault::BadName(field)),
    }
}

/// A field's name.
#[tactic(auto, unfolding(crate::specs::LineValues::name_at))]
pub(crate) fn name_field<K>(object: &Value, field: Field) -> Result<Name<K>, LineFault>
    ensures { Gives (λ n. n) result (name_at field (view object.now)) }
{
    name_of(text_field(object, field, field)?, field)
}

/// The direction that a field's text names.
pub(crate) fn dir_of(text: &str, field: Field) -> Result<Dir, LineFault>
    ensures { Gives (λ d. d) result (or_fault (BadField field) (dir_of text.now)) }
{
    match text {
        "up" => Ok(Dir::Up),
        "down" => Ok(Dir::Down),
        _ => Err(LineFault::BadField(field)),
    }
}

/// A field's direction.
#[tactic(auto, unfolding(crate::specs::LineValues::dir_at))]
pub(crate) fn dir_field(object: &Value, field: Field) -> Result<Dir, LineFault>
    ensures { Gives (λ d. d) result (dir_at field (view object.now)) }
{
    dir_of(text_field(object, field, field)?, field)
}

/// The octets that a field's text spells in hexadecimal, in memory that may be kept for the next ones.
fn octets_of<'a>(octets: &'a mut Vec<u8>, text: &str, field: Field) -> Result<&'a [u8], LineFault>
    ensures { Gives (λ o. o.now) result (under (λ e. BadHex field) (decode_of text.now)) }
{
    let digits = text.as_bytes();
    if digits.len() % 2 == 1 {
        return Err(LineFault::BadHex(field));
    }
    let Ok(()) = octets.resize(digits.len() / 2, 0) else {
        return Err(LineFault::NoMemory);
    };
    if !decode(digits, octets.as_mut_slice()) {
        return Err(LineFault::BadHex(field));
    }
    Ok(octets.as_slice())
}

/// The header of the packet that a field's text spells. The octets are left in `octets`.
pub(crate) fn packet_of(
    octets: &mut Vec<u8>,
    text: &str,
    field: Field,
    dir: Dir,
) -> Result<Header, LineFault>
    ensures { Gives (λ h. h) result (packet_of field dir text.now) }
{
    let octets = octets_of(octets, text, field)?;
    match read_header(dir, octets) {
        Ok(header) => Ok(header),
        Err(fault) => Err(LineFault::BadPacket(field, fault)),
    }
}

/// The header of a field's packet.
#[tactic(auto, unfolding(crate::specs::LineValues::packet_at, crate::specs::LineValues::octets_at))]
pub(crate) fn packet_field(
    alloc: Global,
    object: &Value,
    field: Field,
    dir: Dir,
) -> Result<Header, LineFault>
    ensures { Gives (λ h. h) result (packet_at field dir (view object.now)) }
{
    packet_of(
        &mut Vec::new(alloc),
        text_field(object, field, field)?,
        field,
        dir,
    )
}
