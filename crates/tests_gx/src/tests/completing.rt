//! Rules that definitions make, alone and of active rules.
use super::hexadecimal::octets;
use super::worked_messages::{
    A_LONG_NAME, A_REQUEST_THAT_REMOVES_RULES_AND_REPORTS_ALL, AN_ANSWER_WITH_A_DEFAULT_QOS,
};
use super::{Case, expect_equal, first_wrong};
use pcef_diameter::HEADER_LEN;
use pcef_gx::{Order, Orders, RuleChange, RuleFailure, complete, group, read_cca, read_rar};
use pcef_packet::Addr;
use pcef_rule::{Gate, Rule};
use std::alloc::Global;

/// An address of version 4: 10.0.0.1.
const V4: Addr = Addr::V4(0x0a00_0001);

/// An address of version 6: 2001:db8::1.
const V6: Addr = Addr::V6(0x2001_0db8_0000_0000_0000_0000_0000_0001);

/// The precedence of a rule, its QCI, its gate, and how many filters.
type Properties = (u32, u8, Gate, usize);

/// A definition that makes a rule, or doesn't.
struct Definition {
    /// The address of the session.
    ue: Addr,
    /// The message that has it, as the last one.
    message: &'static str,
    is_request: bool,
    /// Whether the rule of the first definition is active.
    is_active: bool,
    due: Result<Properties, RuleFailure>,
}

static DEFINITIONS: [Definition; 5] = [
    Definition {
        ue: V4,
        message: A_LONG_NAME,
        is_request: true,
        is_active: false,
        due: Ok((677_745_747, 7, Gate::Disabled, 1)),
    },
    // What a definition leaves out of an active rule stays.
    Definition {
        ue: V4,
        message: AN_ANSWER_WITH_A_DEFAULT_QOS,
        is_request: false,
        is_active: true,
        due: Ok((677_745_747, 5, Gate::EnabledUplink, 1)),
    },
    Definition {
        ue: V4,
        message: AN_ANSWER_WITH_A_DEFAULT_QOS,
        is_request: false,
        is_active: false,
        due: Err(RuleFailure::MissingFlowInformation),
    },
    Definition {
        ue: V4,
        message: A_REQUEST_THAT_REMOVES_RULES_AND_REPORTS_ALL,
        is_request: true,
        is_active: false,
        due: Err(RuleFailure::MissingFlowInformation),
    },
    // Its filter is of the other version.
    Definition {
        ue: V6,
        message: A_LONG_NAME,
        is_request: true,
        is_active: false,
        due: Err(RuleFailure::IncorrectFlowInformation),
    },
];

/// What the AVPs of a message ask for.
fn asked_in<'m>(alloc: Global, message: &'m [u8], is_request: bool) -> Option<Orders<'m>> {
    let avps = group(alloc, message.get(HEADER_LEN..)?).ok()?;
    if is_request {
        read_rar(alloc, &avps).ok()
    } else {
        read_cca(alloc, &avps).ok()
    }
}

/// The last definition of a rule that can be had.
fn last_definition<'a>(orders: &'a [Order]) -> Option<&'a RuleChange> {
    let mut last = None;
    for order in orders {
        if let Order::Install(change) = order {
            last = Some(change);
        }
    }
    last
}

fn properties(rule: &Rule) -> Properties {
    let has = rule.properties();
    (
        has.precedence,
        has.qos.qci.0,
        has.gate,
        rule.filters().len(),
    )
}

/// The rule that the last of these definitions makes.
fn rule_of(
    alloc: Global,
    ue: Addr,
    orders: &[Order],
    active: Option<&Rule>,
) -> Option<Result<Rule, RuleFailure>> {
    complete(alloc, ue, last_definition(orders)?, active).ok()
}

/// The rule of the first message, which defines all of it.
fn whole_rule(alloc: Global) -> Option<Rule> {
    let octets = octets(alloc, A_LONG_NAME);
    let asked = asked_in(alloc, &octets, true)?;
    rule_of(alloc, V4, &asked.orders, None)?.ok()
}

/// What becomes of the last definition in a message.
fn made(
    alloc: Global,
    ue: Addr,
    message: &[u8],
    is_request: bool,
    active: Option<&Rule>,
) -> Option<Result<Properties, RuleFailure>> {
    let asked = asked_in(alloc, message, is_request)?;
    match rule_of(alloc, ue, &asked.orders, active)? {
        Ok(rule) => Some(Ok(properties(&rule))),
        Err(failure) => Some(Err(failure)),
    }
}

impl Case for Definition {
    fn is_due(&self, alloc: Global) -> bool {
        let active = if self.is_active {
            whole_rule(alloc)
        } else {
            None
        };
        let message = octets(alloc, self.message);
        let found = made(alloc, self.ue, &message, self.is_request, active.as_ref());
        found == Some(self.due)
    }
}

#[test]
fn what_a_definition_leaves_out_of_an_active_rule_stays(rt: HostRuntime) {
    expect_equal(&rt, &first_wrong(rt.alloc(), &DEFINITIONS), &None);
}
