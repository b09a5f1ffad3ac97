//! Lines in their canonical spelling, which are compared with it before any token is read: `take`, `flush` and
//! `refresh` without a space, their fields in the usual order.

ghost use Rattle.std.specs.Prelude.{◌≡◌, ◌≤◌, ◌++◌, IfSome, Ok};
ghost use Rattle.std.specs.Fmt.{decimal};
ghost use Rattle.pcef_filter.specs.Reading.{reading_of};
ghost use Rattle.pcef_line.specs.Canonical.{dir_part, take_text};
ghost use Rattle.pcef_line.specs.LineOf.{line_by};

use crate::field::Field;
use crate::line::Line;
use crate::values::packet_of;
use pcef_model::Step;
use pcef_packet::Dir;

/// The number of a worker, where it's written as is usual.
pub(crate) fn worker_of(text: &str) -> Option<u8>
    ensures spelled { IfSome result (λ n. text.now ≡ decimal n) }
    ensures small { IfSome result (λ n. n ≤ 15) }
{
    match text {
        "0" => Some(0),
        "1" => Some(1),
        "2" => Some(2),
        "3" => Some(3),
        "4" => Some(4),
        "5" => Some(5),
        "6" => Some(6),
        "7" => Some(7),
        "8" => Some(8),
        "9" => Some(9),
        "10" => Some(10),
        "11" => Some(11),
        "12" => Some(12),
        "13" => Some(13),
        "14" => Some(14),
        "15" => Some(15),
        _ => None,
    }
}

/// The direction that stands at the front of a text, where it's written as is usual, and the text after it.
fn dir_first(text: &str) -> Option<(Dir, &str)>
    ensures { IfSome result (λ p. text.now ≡ dir_part p.0 ++ p.1.now) }
{
    match text.strip_prefix("\"dir\":\"down\",\"packet\":\"") {
        Some(rest) => Some((Dir::Down, rest)),
        None => Some((Dir::Up, text.strip_prefix("\"dir\":\"up\",\"packet\":\"")?)),
    }
}

/// The worker, the direction and the packet's text of a `take` in its canonical spelling.
fn canonical_parts(text: &str) -> Option<(u8, Dir, &str)>
    ensures spelled { IfSome result (λ p. text.now ≡ take_text p.0 p.1 p.2.now) }
    ensures small { IfSome result (λ p. p.0 ≤ 15) }
{
    let rest = text.strip_prefix("{\"do\":\"take\",\"worker\":")?;
    let (digits, rest) = rest.split_once(',')?;
    let worker = worker_of(digits)?;
    let (dir, rest) = dir_first(rest)?;
    let packet = rest.strip_suffix("\"}")?;
    Some((worker, dir, packet))
}

/// The line of a `take` in its canonical spelling, if its packet has no fault. This reads no token.
fn canonical_take(text: &str, octets: &mut Vec<u8>) -> Option<Line>
    ensures { IfSome result (λ l. line_by reading_of text.now ≡ Ok l) }
{
    let (worker, dir, packet) = canonical_parts(text)?;
    match packet_of(octets, packet, Field::Packet, dir) {
        Ok(header) => Some(Line::Step(Step::Take { worker, header })),
        Err(_) => None,
    }
}

/// The line of a `flush` or a `refresh` in its canonical spelling. This reads no token.
fn canonical_step(text: &str) -> Option<Line>
    ensures { IfSome result (λ l. line_by reading_of text.now ≡ Ok l) }
{
    let rest = text.strip_suffix("}")?;
    if let Some(digits) = rest.strip_prefix("{\"do\":\"flush\",\"worker\":") {
        let worker = worker_of(digits)?;
        return Some(Line::Step(Step::Flush { worker }));
    }
    let digits = rest.strip_prefix("{\"do\":\"refresh\",\"worker\":")?;
    let worker = worker_of(digits)?;
    Some(Line::Step(Step::Refresh { worker }))
}

/// The line of a text in its canonical spelling, if its packet has no fault. The octets of its packet are left in
/// `octets`. Any other text is read token by token.
pub(crate) fn canonical_line(text: &str, octets: &mut Vec<u8>) -> Option<Line>
    ensures { IfSome result (λ l. line_by reading_of text.now ≡ Ok l) }
{
    match canonical_take(text, octets) {
        Some(line) => Some(line),
        None => canonical_step(text),
    }
}
