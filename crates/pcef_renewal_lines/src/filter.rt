//! Filters in lines.

ghost use Rattle.std.specs.Prelude.{◌≡◌, IfOk, map, string_bytes};
ghost use Rattle.pcef_renewal_lines.specs.Filters.{direction_word, endpoint_text, filter_object, filter_text, filters_text, flow_part, place_text, ports_text, proto_text, range_text};

use crate::address::address_text;
use pcef_filter::{Direction, Endpoint, Filter, Flow, Place, PortRange};
use std::alloc::{AllocError, Global};

fn range_text(alloc: Global, range: PortRange) -> Result<String, AllocError>
    ensures { IfOk result (λ text. string_bytes text ≡ range_text range) }
{
    let PortRange { first, last } = range;
    if first == last {
        return format!(in alloc; "{first}");
    }
    format!(in alloc; "{first}-{last}")
}

fn range_texts(alloc: Global, ranges: &[PortRange]) -> Result<Vec<String>, AllocError>
    ensures { IfOk result (λ texts. map string_bytes texts.items ≡ map range_text ranges.now) }
{
    let mut texts = Vec::new(alloc);
    for range in ranges {
        texts.push(range_text(alloc, *range)?)?;
    }
    Ok(texts)
}

/// The ports behind a place, if there are any.
fn ports_text(alloc: Global, ports: &[PortRange]) -> Result<String, AllocError>
    ensures { IfOk result (λ text. string_bytes text ≡ ports_text ports.now) }
{
    if ports.is_empty() {
        return Ok(String::new(alloc));
    }
    let list = range_texts(alloc, ports)?.join(alloc, ",")?;
    format!(in alloc; " {list}")
}

fn place_text(alloc: Global, place: Place) -> Result<String, AllocError>
    ensures { IfOk result (λ text. string_bytes text ≡ place_text place) }
{
    match place {
        Place::Any => String::from_str(alloc, "any"),
        Place::Assigned => String::from_str(alloc, "assigned"),
        Place::Net(net) => {
            let address = address_text(alloc, net.addr)?;
            let bits = net.bits;
            format!(in alloc; "{address}/{bits}")
        }
    }
}

fn endpoint_text(alloc: Global, endpoint: &Endpoint) -> Result<String, AllocError>
    ensures { IfOk result (λ text. string_bytes text ≡ endpoint_text endpoint.now) }
{
    let place = place_text(alloc, endpoint.place)?;
    let ports = ports_text(alloc, &endpoint.ports)?;
    format!(in alloc; "{place}{ports}")
}

fn proto_text(alloc: Global, proto: Option<u8>) -> Result<String, AllocError>
    ensures { IfOk result (λ text. string_bytes text ≡ proto_text proto) }
{
    match proto {
        None => String::from_str(alloc, "ip"),
        Some(number) => format!(in alloc; "{number}"),
    }
}

fn direction_word(direction: Direction) -> &'static str
    ensures { result.now ≡ direction_word direction }
{
    match direction {
        Direction::In => "in",
        Direction::Out => "out",
    }
}

/// The text of a filter, without its flow word.
fn filter_text(alloc: Global, filter: &Filter) -> Result<String, AllocError>
    ensures { IfOk result (λ text. string_bytes text ≡ filter_text filter.now) }
{
    let direction = direction_word(filter.direction);
    let proto = proto_text(alloc, filter.proto)?;
    let source = endpoint_text(alloc, &filter.source)?;
    let target = endpoint_text(alloc, &filter.target)?;
    format!(in alloc; "permit {direction} {proto} from {source} to {target}")
}

/// The flow word behind a filter's text, if it has one.
fn flow_part(flow: Option<Flow>) -> &'static str
    ensures { result.now ≡ flow_part flow }
{
    match flow {
        None => "",
        Some(Flow::Downlink) => ",\"flow\":\"downlink\"",
        Some(Flow::Uplink) => ",\"flow\":\"uplink\"",
        Some(Flow::Bidirectional) => ",\"flow\":\"bidirectional\"",
    }
}

#[tactic(auto, unfolding(crate::specs::Filters::filter_object))]
fn filter_object(alloc: Global, filter: &Filter) -> Result<String, AllocError>
    ensures { IfOk result (λ text. string_bytes text ≡ filter_object filter.now) }
{
    let text = filter_text(alloc, filter)?;
    let flow = flow_part(filter.flow);
    format!(in alloc; "{{\"text\":\"{text}\"{flow}}}")
}

fn filter_objects(alloc: Global, filters: &[Filter]) -> Result<Vec<String>, AllocError>
    ensures { IfOk result (λ texts. map string_bytes texts.items ≡ map filter_object filters.now) }
{
    let mut texts = Vec::new(alloc);
    for filter in filters {
        texts.push(filter_object(alloc, filter)?)?;
    }
    Ok(texts)
}

/// The filters of a rule, with commas between them.
pub(crate) fn filters_text(alloc: Global, filters: &[Filter]) -> Result<String, AllocError>
    ensures { IfOk result (λ text. string_bytes text ≡ filters_text filters.now) }
{
    filter_objects(alloc, filters)?.join(alloc, ",")
}
