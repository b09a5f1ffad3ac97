//! What messages ask of a session.
use super::changed_messages::{
    A_FLOW_THAT_DENIES, A_GRANT_OF_TIME, A_LENGTH_BEYOND_THE_MESSAGE, A_NUMBER_OF_SIX_OCTETS,
    A_RESERVED_BIT, AN_ENUMERATED_OUT_OF_RANGE, AN_UNKNOWN_MANDATORY_AVP, NO_ORIGIN_HOST,
    TWO_SESSION_IDS,
};
use super::hexadecimal::{octets, put, put_number, put_option};
use super::worked_messages::{
    A_FAILED_ANSWER, A_LONG_NAME, A_REPORT_AND_A_GRANT,
    A_REQUEST_THAT_REMOVES_RULES_AND_REPORTS_ALL, AN_ANSWER_WITH_A_DEFAULT_QOS, FILTERS_AT_FAULT,
    GUARANTEED_RATES, KEYS_OF_ANY_OCTETS, ONE_TRIGGER,
};
use super::{Case, expect_equal, first_wrong};
use pcef_diameter::{HEADER_LEN, read_message_header};
use pcef_gx::{
    GxFault, NameOf, Order, Orders, Quality, RuleChange, RuleFailure, Stop, group, read_cca,
    read_rar,
};
use pcef_model::{Level, TriggerSet};
use pcef_rule::{Gate, KeyName, Qos};
use std::alloc::Global;

fn put_flag(text: &mut String, is: bool) {
    put(text, if is { " true" } else { " false" });
}

fn put_qos(text: &mut String, qos: Qos) {
    put_number(text, " qci ", u64::from(qos.qci.0));
    put_number(text, " level ", u64::from(qos.arp.level()));
    put_flag(text, qos.arp.capability());
    put_flag(text, qos.arp.vulnerability());
}

fn put_quality(text: &mut String, quality: &Option<Quality>) {
    if let Some(quality) = quality {
        put_qos(text, quality.qos);
        if let Some(rates) = quality.rates {
            put_number(text, " up ", u64::from(rates.up));
            put_number(text, " down ", u64::from(rates.down));
        }
    }
}

fn gate_word(gate: Gate) -> &'static str {
    match gate {
        Gate::EnabledUplink => " gate EnabledUplink",
        Gate::EnabledDownlink => " gate EnabledDownlink",
        Gate::Enabled => " gate Enabled",
        Gate::Disabled => " gate Disabled",
    }
}

fn put_named(text: &mut String, word: &str, name: &str) {
    put(text, word);
    put(text, name);
}

fn put_gate(text: &mut String, gate: Option<Gate>) {
    if let Some(gate) = gate {
        put(text, gate_word(gate));
    }
}

fn put_key(text: &mut String, key: &Option<KeyName>) {
    if let Some(key) = key {
        put_named(text, " key ", key.as_str());
    }
}

fn put_change(text: &mut String, change: &RuleChange) {
    put_named(text, "install ", change.name.as_str());
    put_option(text, " precedence ", change.precedence);
    put_number(text, " filters ", change.filters.as_slice().len() as u64);
    put_quality(text, &change.quality);
    put_gate(text, change.gate);
    put_key(text, &change.key);
}

fn put_if(text: &mut String, is: bool, word: &str) {
    if is {
        put(text, word);
    }
}

fn put_set(text: &mut String, set: &TriggerSet) {
    put(text, "triggers");
    put_if(text, set.usage_report, " USAGE_REPORT");
    put_if(text, set.rat_change, " RAT_CHANGE");
    put_if(text, set.plmn_change, " PLMN_CHANGE");
    put_if(text, set.user_location_change, " USER_LOCATION_CHANGE");
    put_if(text, set.ue_time_zone_change, " UE_TIME_ZONE_CHANGE");
}

fn name_word(of: NameOf) -> &'static str {
    match of {
        NameOf::Rule => "unable Rule",
        NameOf::Base => "unable Base",
    }
}

/// A name as it stood, octet by octet.
fn put_octets(text: &mut String, octets: &[u8]) {
    for octet in octets {
        put_number(text, " ", u64::from(*octet));
    }
}

fn put_unable(text: &mut String, name: &[u8], of: NameOf, failure: RuleFailure) {
    put(text, name_word(of));
    put_octets(text, name);
    put_number(text, " code ", u64::from(failure.code()));
}

fn put_monitor(text: &mut String, key: &str, grant: u64, level: Level) {
    put_named(text, "monitor ", key);
    put_number(text, " ", grant);
    put(
        text,
        match level {
            Level::Rule => " rule",
            Level::Session => " session",
        },
    );
}

fn put_order(text: &mut String, order: &Order) {
    match order {
        Order::Remove(name) => put_named(text, "remove ", name.as_str()),
        Order::Activate(name) => put_named(text, "activate ", name.as_str()),
        Order::Install(change) => put_change(text, change),
        Order::Unable { name, of, failure } => put_unable(text, name.octets(), *of, *failure),
        Order::Triggers(set) => put_set(text, set),
        Order::Monitor { key, grant, level } => put_monitor(text, key.as_str(), *grant, *level),
        Order::Stop(key) => put_named(text, "stop ", key.as_str()),
        Order::ReportNow(key) => put_named(text, "report ", key.as_str()),
        Order::ReportAll => put(text, "report all"),
    }
}

fn put_each(text: &mut String, orders: &[Order]) {
    for order in orders {
        put_order(text, order);
        put(text, "; ");
    }
}

fn put_others(text: &mut String, others: &[u32]) {
    for other in others {
        put_number(text, "other ", u64::from(*other));
        put(text, "; ");
    }
}

fn put_default(text: &mut String, qos: Option<Qos>) {
    if let Some(qos) = qos {
        put(text, "default");
        put_qos(text, qos);
        put(text, "; ");
    }
}

/// Writes what a message asks for, in words.
pub(super) fn put_orders(text: &mut String, asked: &Orders) {
    put_each(text, &asked.orders);
    put_others(text, &asked.others);
    put_default(text, asked.default_qos);
    put_option(text, "release ", asked.release);
}

/// Writes a fault, in words.
pub(super) fn put_fault(text: &mut String, fault: &GxFault) {
    put_number(text, "fault ", u64::from(fault.problem.result_code()));
    put_number(text, " at ", u64::from(fault.failed.code));
    put_number(text, " of ", u64::from(fault.failed.vendor.unwrap_or(0)));
}

fn put_stop(text: &mut String, stop: &Stop) {
    match stop {
        Stop::Fault(fault) => put_fault(text, fault),
        Stop::NoMemory => put(text, "no memory"),
    }
}

/// Writes what the AVPs of a message ask for, in words.
fn put_asked(alloc: Global, text: &mut String, is_request: bool, behind: &[u8]) {
    let avps = match group(alloc, behind) {
        Ok(avps) => avps,
        Err(stop) => return put_stop(text, &stop),
    };
    let read = if is_request {
        read_rar(alloc, &avps)
    } else {
        read_cca(alloc, &avps)
    };
    match &read {
        Ok(asked) => put_orders(text, asked),
        Err(stop) => put_stop(text, stop),
    }
}

/// What a message in hexadecimal asks for, in words.
fn asked(alloc: Global, message: &str) -> String {
    let mut text = String::new(alloc);
    let octets = octets(alloc, message);
    if let Some(header) = read_message_header(&octets)
        && header.fault(octets.len()).is_none()
    {
        let behind = octets.get(HEADER_LEN..).unwrap_or(&[]);
        put_asked(alloc, &mut text, header.request, behind);
    }
    text
}

/// A message in hexadecimal, and what it asks for, in words.
struct Asking {
    message: &'static str,
    words: &'static str,
}

impl Case for Asking {
    fn is_due(&self, alloc: Global) -> bool {
        asked(alloc, self.message).as_str() == self.words
    }
}

static ASKED: [Asking; 9] = [
    Asking {
        message: A_REQUEST_THAT_REMOVES_RULES_AND_REPORTS_ALL,
        words: "remove dns; remove web; remove r55; remove voice; remove Rule_20; \
            install r39 precedence 3720813349 filters 0; triggers USAGE_REPORT; report all; other 26; ",
    },
    Asking {
        message: AN_ANSWER_WITH_A_DEFAULT_QOS,
        words: "install r86 filters 0 qci 5 level 10 false true gate EnabledUplink; triggers; other 18; \
            default qci 9 level 12 true false; ",
    },
    Asking {
        message: KEYS_OF_ANY_OCTETS,
        words: "install voice precedence 360979899 filters 3 qci 5 level 5 false false \
            key %86%B3%C8%F5%14%9A%8B`%1A%89x; triggers; monitor vid 1 rule; monitor all 1000 session; \
            other 17; other 0; ",
    },
    Asking {
        message: FILTERS_AT_FAULT,
        words: "remove web; unable Rule 100 110 115 code 12; triggers USER_LOCATION_CHANGE; \
            monitor all 9223372036854775808 rule; ",
    },
    Asking {
        message: A_REPORT_AND_A_GRANT,
        words: "remove ims-sig; report vid; monitor %E8%08%D1%E9 4294967296 rule; ",
    },
    Asking {
        message: A_LONG_NAME,
        words: "install xxxxxxxxxxxxxxxxxxxxxxxxxxxxxxxxxxxxxxxx precedence 677745747 filters 1 qci 7 level 11 \
            false true gate Disabled key all; unable Rule 118 111 105 99 101 code 12; \
            monitor all 4294967296 session; ",
    },
    Asking {
        message: ONE_TRIGGER,
        words: "triggers; other 22; ",
    },
    Asking {
        message: GUARANTEED_RATES,
        words: "install r22 precedence 4145561461 filters 1 qci 2 level 8 false false up 990350 down 1030386 \
            gate EnabledUplink key vid; install r53 precedence 766593390 filters 1 qci 2 level 3 false false \
            up 450514 down 169004 gate EnabledUplink; ",
    },
    Asking {
        message: A_FAILED_ANSWER,
        words: "monitor key-7 9223372036854775808 session; monitor %99W5%86%FA\"%83%F5L%13%EE 1 rule; ",
    },
];

/// Messages that are refused, each at its first fault, and one whose rule is.
static REFUSED: [Asking; 9] = [
    Asking {
        message: A_LENGTH_BEYOND_THE_MESSAGE,
        words: "fault 5014 at 1067 of 10415",
    },
    Asking {
        message: A_RESERVED_BIT,
        words: "fault 3009 at 283 of 0",
    },
    Asking {
        message: AN_UNKNOWN_MANDATORY_AVP,
        words: "fault 5001 at 60000 of 0",
    },
    Asking {
        message: NO_ORIGIN_HOST,
        words: "fault 5005 at 264 of 0",
    },
    Asking {
        message: TWO_SESSION_IDS,
        words: "fault 5009 at 263 of 0",
    },
    Asking {
        message: AN_ENUMERATED_OUT_OF_RANGE,
        words: "fault 5004 at 1048 of 10415",
    },
    Asking {
        message: A_NUMBER_OF_SIX_OCTETS,
        words: "fault 5014 at 421 of 0",
    },
    Asking {
        message: A_GRANT_OF_TIME,
        words: "fault 5012 at 431 of 0",
    },
    Asking {
        message: A_FLOW_THAT_DENIES,
        words: "unable Rule 114 code 16; ",
    },
];

#[test]
fn messages_ask_for_what_is_meant(rt: HostRuntime) {
    expect_equal(&rt, &first_wrong(rt.alloc(), &ASKED), &None);
}

#[test]
fn messages_are_refused_at_their_first_fault(rt: HostRuntime) {
    expect_equal(&rt, &first_wrong(rt.alloc(), &REFUSED), &None);
}
