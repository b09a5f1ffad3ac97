//! Names, which are texts of 1 to 64 characters without blanks.
use super::expect_equal;
use pcef_rule::{KeyName, NameFault, RuleName};
use std::alloc::Global;
use std::hash::{BuildHasher, BuildHasherDefault, FoldHasher};

/// The longest of these has 64 characters.
const NAMES: [&str; 5] = [
    "!",
    "~",
    "video",
    "A-z_0.9",
    "0123456789abcdef0123456789abcdef0123456789abcdef0123456789abcdef",
];

/// The last of these has 65 characters.
const NO_NAMES: [&str; 9] = [
    "",
    " ",
    "two words",
    "\t",
    "line\n",
    "\0",
    "\x7f",
    "na\u{ef}ve",
    "0123456789abcdef0123456789abcdef0123456789abcdef0123456789abcdef!",
];

#[test]
fn names(rt: HostRuntime) {
    for text in &NAMES {
        expect_equal(
            &rt,
            &(text, shown(rt.alloc(), text)),
            &(text, Some([true, true, true])),
        );
    }
}

/// Whether a name has its text, whether its copy has it, and whether it is printed so.
fn shown(alloc: Global, text: &str) -> Option<[bool; 3]> {
    let name = RuleName::new(text).ok()?;
    let printed = format!(in alloc; "{name}").ok()?;
    Some([
        name.as_str() == text,
        name.copy().as_str() == text,
        printed.as_str() == text,
    ])
}

#[test]
fn texts_that_are_no_names(rt: HostRuntime) {
    for text in &NO_NAMES {
        expect_equal(
            &rt,
            &(text, KeyName::new(text).err()),
            &(text, Some(NameFault)),
        );
    }
}

#[test]
fn a_name_in_quotes(rt: HostRuntime) {
    expect_equal(
        &rt,
        &is_quoted(rt.alloc(), "a\"b", "\"a\\\"b\""),
        &Some(true),
    );
}

/// Whether a name is printed so in quotes.
fn is_quoted(alloc: Global, text: &str, quoted: &str) -> Option<bool> {
    let name = KeyName::new(text).ok()?;
    let printed = format!(in alloc; "{name:?}").ok()?;
    Some(printed.as_str() == quoted)
}

#[test]
fn equal_names_have_one_hash(rt: HostRuntime) {
    let [copy, video, audio] = hashes();
    expect_equal(&rt, &(copy == video, video == audio), &(true, false));
}

/// Of a copy of a name, of the name, and of another one.
fn hashes() -> [u64; 3] {
    [
        hash_of(RuleName::known("video").copy()),
        hash_of(RuleName::known("video")),
        hash_of(RuleName::known("audio")),
    ]
}

fn hash_of(name: RuleName) -> u64 {
    let hashing: BuildHasherDefault<FoldHasher> = BuildHasherDefault::new();
    hashing.hash_one(name)
}
