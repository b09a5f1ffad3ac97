//! Which entries may fit where port lists are ignored.

ghost use Rattle.std.specs.Prelude.{◌≡◌};
ghost use Rattle.pcef_index.specs.Candidates.{is_candidate, is_filter_candidate, without_ports};
ghost use Rattle.std.specs.List.{list_any};

use arrayvec::ArrayVec;
use pcef_filter::{Endpoint, Filter};
use pcef_packet::{Addr, Header};
use pcef_table::Source;

fn bare(filter: &Filter) -> Filter
    ensures { result ≡ without_ports filter.now }
{
    Filter {
        direction: filter.direction,
        flow: filter.flow,
        proto: filter.proto,
        source: Endpoint {
            place: filter.source.place,
            ports: ArrayVec::new(),
        },
        target: Endpoint {
            place: filter.target.place,
            ports: ArrayVec::new(),
        },
    }
}

fn any_bare(filters: &[Filter], ue: Addr, header: &Header) -> bool
    ensures { result ≡ list_any (is_filter_candidate ue header.now) filters.now }
{
    filters
        .iter()
        .any(|filter| bare(filter).matches(ue, header))
}

/// Whether an entry may fit where port lists are ignored.
pub(crate) fn is_candidate(source: &Source, ue: Addr, header: &Header) -> bool
    ensures { result ≡ is_candidate ue header.now source.now }
{
    match source {
        Source::Dynamic(rule) => any_bare(rule.filters(), ue, header),
        Source::Predefined(_) => true,
    }
}
