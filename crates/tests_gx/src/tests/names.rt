//! Names of any octets.
use super::{Case, expect_equal, first_wrong};
use pcef_gx::{name_of, octets_of};
use pcef_rule::OfRule;
use std::alloc::Global;

/// The octets of a name, and the text that it is in a session; none of more than 64 characters.
struct Named(&'static [u8], Option<&'static str>);

static NAMES: [Named; 10] = [
    Named(b"web", Some("web")),
    Named(b"50%", Some("50%25")),
    Named(b"a b", Some("a%20b")),
    Named(&[0, 0x7f, 0xff, b'~'], Some("%00%7F%FF~")),
    Named(b"%41", Some("%2541")),
    Named(b"", None),
    Named(&[0; 22], None),
    Named(
        &[0; 21],
        Some("%00%00%00%00%00%00%00%00%00%00%00%00%00%00%00%00%00%00%00%00%00"),
    ),
    Named(
        &[b'x'; 64],
        Some("xxxxxxxxxxxxxxxxxxxxxxxxxxxxxxxxxxxxxxxxxxxxxxxxxxxxxxxxxxxxxxxx"),
    ),
    Named(&[b'x'; 65], None),
];

/// A text that stands for octets: what is no escape stays.
struct Standing(&'static str, &'static [u8]);

static OTHERS: [Standing; 4] = [
    Standing("%41", b"A"),
    Standing("%4a%", b"%4a%"),
    Standing("%", b"%"),
    Standing("%%41", b"%A"),
];

/// Whether a text stands for these octets.
fn stands_for(alloc: Global, text: &str, due: &[u8]) -> bool {
    match octets_of(alloc, text.as_bytes()) {
        Ok(octets) => octets.as_slice() == due,
        Err(_) => false,
    }
}

impl Case for Named {
    fn is_due(&self, alloc: Global) -> bool {
        match (name_of::<OfRule>(self.0), self.1) {
            (Some(name), Some(due)) => {
                name.as_str() == due && stands_for(alloc, name.as_str(), self.0)
            }
            (None, None) => true,
            _ => false,
        }
    }
}

impl Case for Standing {
    fn is_due(&self, alloc: Global) -> bool {
        stands_for(alloc, self.0, self.1)
    }
}

#[test]
fn octets_have_names_and_names_go_back(rt: HostRuntime) {
    let wrong = [
        first_wrong(rt.alloc(), &NAMES),
        first_wrong(rt.alloc(), &OTHERS),
    ];
    expect_equal(&rt, &wrong, &[None, None]);
}
