//! The closures of predefined rules are called: once for each packet that no earlier rule decides.

ghost use Rattle.std.specs.Prelude.{◌≡◌, [], ◌∷◌};
ghost use Rattle.pcef_catalog.specs.Shapes.{test_holds};
ghost use Rattle.pcef_catalog.specs.declared.shape.Test.TheVariants.{Dscp};

use crate::tests::expect_equal;
use crate::tests::scripts::{PROFILE, run_on, script_of};
use arrayvec::ArrayVec;
use pcef_catalog::{Alternative, Catalog, Detect, Predefined, Shape, Test};
use pcef_packet::Header;
use pcef_rule::{Arp, Gate, Properties, Qci, Qos, RuleName};
use std::alloc::Global;
use std::sync::Arc;
use std::sync::atomic::{AtomicU64, Ordering};
use std::test::Fail;

/// What stands before and after the filters of an earlier rule for TCP.
const EARLY: (&str, &str) = (
    r#"{"do":"install","rule":{"name":"early","precedence":10,"filters":["#,
    r#"],"qci":9,"arp":{"level":8,"capability":false,"vulnerability":true},"gate":"ENABLED"}}"#,
);

const TCP: &str = r#"{"text":"permit out 6 from any to assigned"}"#;

/// The lines behind the one that installs it: a packet with expedited forwarding, the same with the default DSCP, and
/// one of TCP, which the earlier rule decides.
const LINES: [&str; 6] = [
    r#"{"do":"activate","name":"expedited"}"#,
    r#"{"do":"attach"}"#,
    r#"{"do":"take","worker":0,"dir":"down","packet":"45b8001c0000000040110000c63364070a0000020035138800080000"}"#,
    r#"{"do":"take","worker":0,"dir":"down","packet":"4500001c0000000040110000c63364070a0000020035138800080000"}"#,
    r#"{"do":"take","worker":0,"dir":"down","packet":"45b8001c0000000040060000c63364070a0000020035138800080000"}"#,
    r#"{"do":"flush","worker":0}"#,
];

const ANSWERS: [&str; 7] = [
    r#"{"bearer":5,"generation":1,"ok":true,"reports":[]}"#,
    r#"{"bearer":5,"generation":2,"ok":true,"reports":[]}"#,
    r#"{"generation":2,"ok":true,"worker":0}"#,
    r#"{"ok":true,"waiting":1}"#,
    r#"{"ok":true,"waiting":2}"#,
    r#"{"ok":true,"waiting":3}"#,
    r#"{"ok":true,"reports":[],"verdicts":[{"bearer":5,"generation":2,"rule":"expedited","verdict":"Passed"},{"generation":2,"verdict":"Unmatched"},{"bearer":5,"generation":2,"rule":"early","verdict":"Passed"}]}"#,
];

/// A shape of one test.
fn one(test: Test) -> Shape
    ensures { result ≡ (test ∷ []) ∷ [] }
{
    let mut tests = ArrayVec::new();
    tests.push(test);
    let mut alternatives = ArrayVec::new();
    alternatives.push(Alternative { tests });
    Shape::new(alternatives)
}

/// A rule for the default bearer.
fn expedited() -> Result<Properties, Fail> {
    Ok(Properties {
        name: RuleName::new("expedited")?,
        precedence: 50,
        qos: Qos {
            qci: Qci(9),
            arp: Arp::new(8, false, true)?,
        },
        rates: None,
        gate: Gate::Enabled,
        key: None,
    })
}

/// The line that installs the earlier rule with so many filters.
fn install(alloc: Global, filters: u8) -> Result<String, Fail> {
    let mut texts = String::from_str(alloc, TCP)?;
    for _ in 1..filters {
        texts.push(',')?;
        texts.push_str(TCP)?;
    }
    let (front, back) = EARLY;
    Ok(format!(in alloc; "{front}{texts}{back}")?)
}

/// Whether the script has its answers with this catalog, where the earlier rule has so many filters.
fn is_answered(alloc: Global, catalog: Arc<Catalog>, filters: u8) -> Result<bool, Fail> {
    let install = install(alloc, filters)?;
    let lines = script_of(alloc, &LINES)?;
    let script = format!(in alloc; "{install}\n{lines}")?;
    let answers = script_of(alloc, &ANSWERS)?;
    let (text, faults) = run_on(alloc, catalog, PROFILE, script.as_str())?;
    Ok(text.as_str() == answers.as_str() && faults == 0)
}

/// Whether it has them with one filter, where the table is searched, and with sixteen, where it has an index.
fn are_answered(alloc: Global, catalog: &Arc<Catalog>) -> Result<bool, Fail> {
    let few = is_answered(alloc, Arc::try_clone(catalog)?, 1)?;
    let many = is_answered(alloc, Arc::try_clone(catalog)?, 16)?;
    Ok(few && many)
}

#[test]
fn a_script_calls_the_closure_for_each_packet_that_no_earlier_rule_decides(
    rt: HostRuntime,
) -> Result<(), Fail> {
    let alloc = rt.alloc();
    let calls = Arc::new(alloc, AtomicU64::new(0))?;
    let theirs = Arc::try_clone(&calls)?;
    let detect: Detect = Box::new(
        alloc,
        move |h: &Header| -> bool
            ensures { result ≡ test_holds h.now (Dscp 46) }
        {
            theirs.fetch_add(1, Ordering::SeqCst);
            h.dscp == 46
        },
    )?;
    let mut rules = Vec::new(alloc);
    rules.push(Predefined::new(expedited()?, one(Test::Dscp(46)), detect))?;
    let catalog = Arc::new(alloc, Catalog::new(alloc, rules)?)?;
    assert!(rt; are_answered(alloc, &catalog)?);
    expect_equal(&rt, &calls.load(Ordering::SeqCst), &4);
    Ok(())
}
