//! The commands of worked sessions.

use crate::tests::expect_equal;
use crate::tests::renewal::worked::{install, make_all, opened_world, text_of};
use pcef_built_in::ShapedCatalog;
use pcef_renewal::renewal;
use std::alloc::Global;
use std::test::Fail;

/// The renewal of a session that took these lines, in few words.
fn renewal_after(alloc: Global, lines: &[&str]) -> Result<String, Fail> {
    let catalog = ShapedCatalog::built_in(alloc)?;
    let mut world = opened_world(alloc, &catalog)?;
    make_all(alloc, &mut world, &catalog, lines)?;
    let list = renewal(alloc, world.session())?;
    text_of(alloc, &list)
}

/// Bearers 7 and 8 are in use: 7 keeps its number, where the rule on 8 comes first.
#[test]
fn a_bearer_keeps_a_number_that_is_given_again(rt: HostRuntime) -> Result<(), Fail> {
    let a = install(rt.alloc(), "a", 8, 1, "")?;
    let b = install(rt.alloc(), "b", 8, 2, "")?;
    let c = install(rt.alloc(), "c", 8, 3, "")?;
    let lines = [
        a.as_str(),
        b.as_str(),
        c.as_str(),
        "{\"do\":\"remove\",\"name\":\"a\"}",
    ];
    let text = renewal_after(rt.alloc(), &lines)?;
    expect_equal(&rt, &text.as_str(), &"install c; install b; ");
    Ok(())
}

/// Two keys, whose rules stand on bearers 7 and 6: the rules come by their bearers.
#[test]
fn rules_come_by_their_bearers(rt: HostRuntime) -> Result<(), Fail> {
    let x = install(rt.alloc(), "x", 8, 1, "")?;
    let ra = install(rt.alloc(), "ra", 8, 2, "a")?;
    let rb = install(rt.alloc(), "rb", 8, 1, "b")?;
    let lines = [
        x.as_str(),
        ra.as_str(),
        "{\"do\":\"remove\",\"name\":\"x\"}",
        rb.as_str(),
    ];
    let text = renewal_after(rt.alloc(), &lines)?;
    expect_equal(&rt, &text.as_str(), &"install rb; install ra; ");
    Ok(())
}

/// A key that is off and in no rule is forgotten; one that is off stays with its rule.
#[test]
fn a_key_without_rules_that_is_off_is_forgotten(rt: HostRuntime) -> Result<(), Fail> {
    let r = install(rt.alloc(), "r", 9, 8, "k")?;
    let lines = [
        "{\"do\":\"monitor\",\"key\":\"s\",\"grant\":50,\"level\":\"session\"}",
        "{\"do\":\"stop\",\"key\":\"s\"}",
        r.as_str(),
        "{\"do\":\"remove\",\"name\":\"r\"}",
        "{\"do\":\"monitor\",\"key\":\"on\",\"grant\":50}",
    ];
    let text = renewal_after(rt.alloc(), &lines)?;
    expect_equal(&rt, &text.as_str(), &"monitor on 50 rule; ");
    Ok(())
}

/// A predefined rule comes by its name, behind the keys that are on and what is subscribed.
#[test]
fn keys_come_first_and_rules_last(rt: HostRuntime) -> Result<(), Fail> {
    let r = install(rt.alloc(), "r", 9, 8, "a")?;
    let lines = [
        r.as_str(),
        "{\"do\":\"activate\",\"name\":\"pre-ef\"}",
        "{\"do\":\"monitor\",\"key\":\"b\",\"grant\":50,\"level\":\"session\"}",
        "{\"do\":\"triggers\",\"events\":[\"USAGE_REPORT\"]}",
    ];
    let text = renewal_after(rt.alloc(), &lines)?;
    expect_equal(
        &rt,
        &text.as_str(),
        &"monitor b 50 session; triggers true; install r; activate pre-ef; ",
    );
    Ok(())
}

/// A closed session is closed again. Its key of session level stays on.
#[test]
fn a_closed_session_is_closed_again(rt: HostRuntime) -> Result<(), Fail> {
    let r = install(rt.alloc(), "r", 9, 8, "k")?;
    let lines = [
        r.as_str(),
        "{\"do\":\"monitor\",\"key\":\"k\",\"grant\":1000}",
        "{\"do\":\"monitor\",\"key\":\"s\",\"grant\":500,\"level\":\"session\"}",
        "{\"do\":\"close\"}",
    ];
    let text = renewal_after(rt.alloc(), &lines)?;
    expect_equal(&rt, &text.as_str(), &"monitor s 500 session; close; ");
    Ok(())
}

/// The line with which worker 0 takes a packet of 28 octets.
const TAKE: &str =
    "{\"do\":\"take\",\"dir\":\"down\",\"packet\":\"4500001c00000000401100000a0000030a0000020035003500080000\",\"worker\":0}";

/// Two packets of 28 octets count towards a grant of 84: 28 are left.
#[test]
fn a_key_gets_the_rest_of_its_grant(rt: HostRuntime) -> Result<(), Fail> {
    let r = install(rt.alloc(), "r", 9, 8, "k")?;
    let lines = [
        r.as_str(),
        "{\"do\":\"monitor\",\"key\":\"k\",\"grant\":84}",
        "{\"do\":\"triggers\",\"events\":[\"USAGE_REPORT\"]}",
        "{\"do\":\"attach\"}",
        TAKE,
        TAKE,
        "{\"do\":\"flush\",\"worker\":0}",
    ];
    let text = renewal_after(rt.alloc(), &lines)?;
    expect_equal(
        &rt,
        &text.as_str(),
        &"monitor k 28 rule; triggers true; install r; ",
    );
    Ok(())
}

/// A grant of 28 octets is reached and reported: the key is on without one.
#[test]
fn a_grant_that_was_used_up_is_out_of_reach(rt: HostRuntime) -> Result<(), Fail> {
    let web = install(rt.alloc(), "web", 9, 8, "k")?;
    let lines = [
        web.as_str(),
        "{\"do\":\"monitor\",\"key\":\"k\",\"grant\":28}",
        "{\"do\":\"triggers\",\"events\":[\"USAGE_REPORT\"]}",
        "{\"do\":\"attach\"}",
        TAKE,
        "{\"do\":\"flush\",\"worker\":0}",
        "{\"do\":\"finish\",\"worker\":0}",
    ];
    let text = renewal_after(rt.alloc(), &lines)?;
    expect_equal(
        &rt,
        &text.as_str(),
        &"monitor k 18446744073709551615 rule; triggers true; install web; ",
    );
    Ok(())
}
