//! The packet of a line of a script.

use crate::figures::Handed;
use crate::values::{number_at, text_at};
use pcef_packet::{Dir, read_header};
use serde_json::Value;
use std::alloc::{AllocError, Global};

/// The octets of a packet by its header, or 0 where it has none.
fn volume(alloc: Global, dir: Dir, packet: &str) -> Result<u64, AllocError> {
    let octets = match hex::decode(alloc, packet) {
        Ok(octets) => octets,
        Err(hex::FromHexError::OutOfMemory) => return Err(AllocError),
        Err(_) => return Ok(0),
    };
    Ok(match read_header(dir, &octets) {
        Ok(header) => u64::from(header.octets),
        Err(_) => 0,
    })
}

/// The packet of the `take` line of this number.
pub(crate) fn packet_of(
    alloc: Global,
    number: u64,
    line: &Value,
) -> Result<Option<Handed>, AllocError> {
    let (Some(worker), Some(dir), Some(packet)) = (
        number_at(line, "worker"),
        text_at(line, "dir"),
        text_at(line, "packet"),
    ) else {
        return Ok(None);
    };
    let is_up = dir == "up";
    let dir = if is_up { Dir::Up } else { Dir::Down };
    Ok(Some(Handed {
        line: number,
        worker,
        is_up,
        octets: volume(alloc, dir, packet)?,
    }))
}
