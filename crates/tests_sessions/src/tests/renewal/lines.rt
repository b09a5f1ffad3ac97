//! The lines that sessions show.

use crate::tests::expect_equal;
use crate::tests::renewal::worked::{install, make_all, opened, opened_world};
use arrayvec::ArrayVec;
use pcef_built_in::ShapedCatalog;
use pcef_filter::{Direction, Endpoint, Filter, Flow, Place};
use pcef_model::Command;
use pcef_renewal_lines::{LinesRefusal, answer_lines, renewal_lines};
use pcef_rule::{Arp, Gate, Properties, Qci, Qos, Rule, RuleName};
use std::alloc::Global;
use std::test::Fail;

fn answer_behind(alloc: Global, lines: &[&str]) -> Result<String, Fail> {
    let catalog = ShapedCatalog::built_in(alloc)?;
    let mut world = opened_world(alloc, &catalog)?;
    make_all(alloc, &mut world, &catalog, lines)?;
    Ok(answer_lines(alloc, world.session())?)
}

#[test]
fn a_session_shows_its_open_and_its_commands(rt: HostRuntime) -> Result<(), Fail> {
    let rule = install(rt.alloc(), "a", 9, 8, "k")?;
    let monitor = "{\"do\":\"monitor\",\"key\":\"k\",\"grant\":50}";
    let text = answer_behind(rt.alloc(), &[rule.as_str(), monitor])?;
    expect_equal(
        &rt,
        &text.as_str(),
        &"{\"lines\":[{\"do\":\"open\",\"ue\":\"10.0.0.2\"},{\"do\":\"monitor\",\"key\":\"k\",\"grant\":50,\"level\":\"rule\"},{\"do\":\"install\",\"rule\":{\"name\":\"a\",\"precedence\":100,\"filters\":[{\"text\":\"permit out ip from any to any\",\"flow\":\"bidirectional\"}],\"qci\":9,\"arp\":{\"level\":8,\"capability\":false,\"vulnerability\":false},\"gate\":\"ENABLED\",\"key\":\"k\"}}],\"ok\":true}",
    );
    Ok(())
}

#[test]
fn a_terminated_session_shows_no_lines(rt: HostRuntime) -> Result<(), Fail> {
    let text = answer_behind(rt.alloc(), &["{\"do\":\"terminate\"}"])?;
    expect_equal(
        &rt,
        &text.as_str(),
        &"{\"name\":\"Terminated\",\"refused\":1}",
    );
    Ok(())
}

fn anywhere() -> Endpoint {
    Endpoint {
        place: Place::Any,
        ports: ArrayVec::new(),
    }
}

/// A rule with a filter that no text spells: beside `in` there is no flow word.
fn unspelled(alloc: Global) -> Result<Rule, Fail> {
    let filter = Filter {
        direction: Direction::In,
        flow: Some(Flow::Uplink),
        proto: None,
        source: anywhere(),
        target: anywhere(),
    };
    let properties = Properties {
        name: RuleName::new("a")?,
        precedence: 100,
        qos: Qos {
            qci: Qci(9),
            arp: Arp::new(8, false, false)?,
        },
        rates: None,
        gate: Gate::Enabled,
        key: None,
    };
    Ok(Rule::new(alloc, properties, &[filter])?)
}

#[test]
fn a_line_that_would_read_otherwise_is_not_shown(rt: HostRuntime) -> Result<(), Fail> {
    let catalog = ShapedCatalog::built_in(rt.alloc())?;
    let mut session = opened(rt.alloc(), &catalog)?;
    session.command(Command::Install(unspelled(rt.alloc())?))?;
    let refusal = renewal_lines(rt.alloc(), &session).err();
    expect_equal(&rt, &refusal, &Some(LinesRefusal::Unwritable));
    let text = answer_lines(rt.alloc(), &session)?;
    expect_equal(
        &rt,
        &text.as_str(),
        &"{\"name\":\"Unwritable\",\"refused\":23}",
    );
    Ok(())
}
