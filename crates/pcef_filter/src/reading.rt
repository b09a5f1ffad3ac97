//! The reader of filter texts.

ghost use Rattle.std.specs.Prelude.{◌≡◌, IfErr, IfOk, MatchResult};
ghost use Rattle.pcef_filter.specs.Tokens.{tokens};
ghost use Rattle.pcef_filter.specs.Grammar.{Spells};
ghost use Rattle.pcef_filter.specs.Faults.{FilterFaultOf};
ghost use Rattle.pcef_filter.specs.Reading.{IsFront, filter_in, parts_in, reading_of, source_at, target_at, token_at, word_at};
ghost use Rattle.pcef_filter.specs.ReadingClasses.{direction_in, proto_in};
ghost use Rattle.pcef_filter.specs.declared.filter.Filter.{Filter};

use crate::classes::{clashes, direction_of, proto_of, starts_with_digit};
use crate::filter::{Direction, Endpoint, Filter, FilterFault, Flow};
use crate::places::place_of;
use crate::ports::ports_of;
use crate::tokens::Tokens;
use arrayvec::ArrayVec;

/// Reads a word that must stand here.
fn expect_word(left: &mut Tokens<'_>, word: &[u8], fault: FilterFault) -> Result<(), FilterFault>
    ensures { MatchResult result (λ _. word_at word.now fault left.old ≡ Ok left.new)
        (λ e. word_at word.now fault left.old ≡ Err e) }
{
    match left.next() {
        Some(token) if token == word => Ok(()),
        _ => Err(fault),
    }
}

/// Reads the direction.
fn take_direction(left: &mut Tokens<'_>) -> Result<Direction, FilterFault>
    ensures { IsFront result left.new (token_at direction_in FilterFault.Direction left.old) }
{
    let token = left.next().ok_or(FilterFault::Direction)?;
    direction_of(token).ok_or(FilterFault::Direction)
}

/// Reads the protocol.
fn take_proto(left: &mut Tokens<'_>) -> Result<Option<u8>, FilterFault>
    ensures { IsFront result left.new (token_at proto_in FilterFault.Proto left.old) }
{
    let token = left.next().ok_or(FilterFault::Proto)?;
    proto_of(token).ok_or(FilterFault::Proto)
}

/// Reads the source, with its ports if it has some, and the word `to`.
#[tactic(auto, unfolding(crate::specs::Reading::source_at, crate::specs::Reading::source_from))]
fn take_source(left: &mut Tokens<'_>) -> Result<Endpoint, FilterFault>
    ensures { IsFront result left.new (source_at left.old) }
{
    let Some(token) = left.next() else {
        return Err(FilterFault::Source);
    };
    let Some(place) = place_of(token) else {
        return Err(FilterFault::Source);
    };
    let Some(mut next) = left.next() else {
        return Err(FilterFault::To);
    };
    let mut ports = ArrayVec::new();
    if starts_with_digit(next) {
        let Some(list) = ports_of(next) else {
            return Err(FilterFault::SourcePorts);
        };
        ports = list;
        let Some(following) = left.next() else {
            return Err(FilterFault::To);
        };
        next = following;
    }
    if next == b"to".as_slice() {
        Ok(Endpoint { place, ports })
    } else {
        Err(FilterFault::To)
    }
}

/// Reads the target, with its ports if it has some, up to the end of the text.
#[tactic(auto, unfolding(crate::specs::Reading::target_at, crate::specs::Reading::target_from))]
fn take_target(mut left: Tokens<'_>) -> Result<Endpoint, FilterFault>
    ensures { result ≡ target_at left.entry }
{
    let Some(token) = left.next() else {
        return Err(FilterFault::Target);
    };
    let Some(place) = place_of(token) else {
        return Err(FilterFault::Target);
    };
    let Some(token) = left.next() else {
        return Ok(Endpoint {
            place,
            ports: ArrayVec::new(),
        });
    };
    if !starts_with_digit(token) {
        return Err(FilterFault::Rest);
    }
    let Some(ports) = ports_of(token) else {
        return Err(FilterFault::TargetPorts);
    };
    match left.next() {
        None => Ok(Endpoint { place, ports }),
        Some(_) => Err(FilterFault::Rest),
    }
}

/// The filter that a text spells, whether or not it may have this flow word.
#[tactic(auto, unfolding(crate::specs::Reading::parts_in))]
fn read_spelled(text: &str, flow: Option<Flow>) -> Result<Filter, FilterFault>
    ensures { result ≡ parts_in flow (tokens text.now) }
{
    let mut left = Tokens::new(text);
    expect_word(&mut left, b"permit", FilterFault::Action)?;
    let direction = take_direction(&mut left)?;
    let proto = take_proto(&mut left)?;
    expect_word(&mut left, b"from", FilterFault::From)?;
    let source = take_source(&mut left)?;
    let target = take_target(left)?;
    Ok(Filter {
        direction,
        flow,
        proto,
        source,
        target,
    })
}

/// That filter, if it may have this flow word, which is judged last.
#[tactic(auto, unfolding(crate::specs::Reading::filter_in))]
fn read_allowed(text: &str, flow: Option<Flow>) -> Result<Filter, FilterFault>
    ensures { result ≡ filter_in flow (tokens text.now) }
{
    let filter = read_spelled(text, flow)?;
    if clashes(filter.direction, flow) {
        Err(FilterFault::Flow)
    } else {
        Ok(filter)
    }
}

/// Reads a filter text and the flow word beside it (RFC 6733, clause 4.3.1; TS 29.214, clause 5.3.8,
/// Flow-Description; TS 29.212, clause 5.3.65, Flow-Direction).
///
/// ```text
/// filter  = "permit" dir proto "from" place [ports] "to" place [ports]
/// dir     = "in" | "out"
/// proto   = "ip" | number up to 255
/// place   = "any" | "assigned" | address ["/" bits]
/// address = number "." number "." number "." number
///         | eight groups with ":" between them, or fewer with one "::"
/// group   = one to four hexadecimal digits
/// ports   = range {"," range}, at most eight
/// range   = port | port "-" port
/// ```
///
/// Spaces and tabs stand between tokens, and may stand at both ends. Numbers have one to five digits
/// and those of an address one to three, leading zeros included.
///
/// The fault is that of the first token that doesn't fit, or of the place where a token is missing. `Flow` is the last
/// in order: beside `in` no flow word may be given. Takes no memory.
pub fn read_filter(text: &str, flow: Option<Flow>) -> Result<Filter, FilterFault>
    // A filter that is returned is spelled by the text.
    ensures found { IfOk result (λ filter. Spells text.now flow filter) }
    // The filter that the text spells is returned.
    ensures only { (filter : Filter) → Spells text.now flow filter → result ≡ Ok filter }
    // A fault that is returned is the text's. `one_fault` says that it is the only one.
    ensures fault { IfErr result (λ e. FilterFaultOf text.now flow e) }
    // The same, as a function of the tokens.
    ensures reading { result ≡ reading_of text.now flow }
{
    read_allowed(text, flow)
}
