//! A filter of a rule.

ghost use Rattle.std.specs.Prelude.{◌≡◌, ◌<◌, IfOk, length};
ghost use Rattle.pcef_index.specs.private.RuleFilters.{filter_at};

use crate::lines::shared_bits;
use crate::sides::{Side, end_on};
use pcef_filter::{Filter, Place};
use pcef_packet::Addr;
use pcef_rule::Rule;
use std::alloc::AllocError;
use std::marker::Model;

/// A filter of a rule, with which it shares the memory. Contracts see the filter.
pub(crate) struct RuleFilter {
    rule: Rule,
    place: usize,
    /// Whether it is known to let all addresses of the session pass whose packets alone are looked up.
    is_open: bool,
}

// Written out, so that an owner proves one call on each return path.
impl Drop for RuleFilter {
    fn drop(self) {
        let RuleFilter {
            rule: _,
            place: _,
            is_open: _,
        } = self;
    }
}

impl Model for RuleFilter {
    ghost use Rattle.std.specs.Prelude.{◌<◌, length};
    ghost use Rattle.pcef_filter.specs.declared.filter.Filter.{Filter};
    ghost use Rattle.pcef_index.specs.private.RuleFilters.{filter_at};

    ghost Value = { Filter };

    ghost view = { λ f. filter_at f.rule.filters f.place };

    ghost invariant = { λ f. f.place < length f.rule.filters };
}

/// Whether a filter lets all addresses of a session pass on the user equipment's side.
fn is_open(filter: &Filter, ue: Addr) -> bool {
    match &end_on(Side::Local, filter).place {
        Place::Any | Place::Assigned => true,
        Place::Net(net) => net.bits <= shared_bits(net.bits, ue)
            && ue.agrees_in(net.bits, net.addr),
    }
}

impl RuleFilter {
    /// The filter at a place of a rule, where the packets of any session are looked up, or those of the one with an address.
    pub(crate) fn new(
        rule: &Rule,
        place: usize,
        own: Option<Addr>,
    ) -> Result<RuleFilter, AllocError>
        requires { place < length rule.now.filters }
        ensures { IfOk result (λ f. f ≡ filter_at rule.now.filters place) }
    {
        let is_open = match own {
            None => false,
            Some(ue) => is_open(&rule.filters()[place], ue),
        };
        Ok(RuleFilter {
            rule: rule.copy()?,
            place,
            is_open,
        })
    }

    /// Whether it is known to let all addresses of the session pass whose packets alone are looked up.
    pub(crate) fn is_open(&self) -> bool {
        self.is_open
    }

    /// The filter.
    pub(crate) fn get(&self) -> &Filter
        ensures { result.now ≡ self.now }
    {
        &self.rule.filters()[self.place]
    }
}
