//! The names of rules and of monitoring keys.

ghost use Rattle.std.specs.Prelude.{◌≡◌, ◌↔◌, IsTrue, IsOk, IfOk, nat_eq, Some, refl};
ghost use Rattle.std.specs.Ordering.{nat_cmp};
ghost use Rattle.std.specs.Cmp.{partial_equiv_from_equiv};
ghost use Rattle.std.specs.Cmp.Lexicographic.{pointwise, slice_cmp, nat_list_eq_equiv, nat_list_cmp_total, texts_po, texts_ties};
ghost use Rattle.std.specs.Cmp.Rules.{hashing};
ghost use Rattle.std.specs.Hash as fed;
ghost use Rattle.std.proofs.Common.{rules};
ghost use Rattle.pcef_rule.specs.Name.{IsName, IsVisible};

use arrayvec::ArrayString;
use std::cmp::Ordering;
use std::fmt;
use std::hash::{Hash, Hasher};
use std::marker::{Model, PhantomData};
use thiserror::Error;

/// A text is no name: it isn't 1 to 64 visible ASCII bytes.
#[derive(Clone, Copy, Debug, PartialEq, Eq, Error)]
#[error("a name is 1 to 64 visible ASCII characters")]
pub struct NameFault;

/// Marks the name of a rule.
#[derive(Clone, Copy, Debug, PartialEq, Eq)]
pub struct OfRule;

/// Marks the name of a monitoring key.
#[derive(Clone, Copy, Debug, PartialEq, Eq)]
pub struct OfKey;

/// A name: 1 to 64 bytes from 0x21 to 0x7E. Names are compared, ordered and hashed by their bytes,
/// which are also what contracts see of them.
#[derive(Drop)]
pub struct Name<K> {
    text: ArrayString<64>,
    of: PhantomData<K>,
}

/// The name of a rule (TS 29.212, clause 5.3.6, Charging-Rule-Name).
pub type RuleName = Name<OfRule>;

/// The name of a monitoring key (TS 29.212, clause 5.3.59, Monitoring-Key).
pub type KeyName = Name<OfKey>;

impl<K> Model for Name<K> {
    ghost use Rattle.std.specs.Prelude.{List, ℕ};
    ghost use Rattle.pcef_rule.specs.Name.{IsName};

    ghost Value = { List ℕ };

    ghost view = { λ n. n.text.bytes };

    ghost invariant = { λ n. IsName n.text.bytes };
}

fn is_visible(byte: u8) -> bool
    ensures { IsTrue result ↔ IsVisible byte }
{
    0x21 <= byte && byte <= 0x7E
}

fn is_name(bytes: &[u8]) -> bool
    ensures { IsTrue result ↔ IsName bytes.now }
{
    if bytes.is_empty() || bytes.len() > 64 {
        return false;
    }
    bytes.iter().all(|byte| is_visible(*byte))
}

impl<K> Name<K> {
    /// The name that a text is, or [`NameFault`] where it isn't 1 to 64 bytes from 0x21 to 0x7E.
    /// Takes no memory.
    pub fn new(text: &str) -> Result<Name<K>, NameFault>
        ensures variant { IsOk result ↔ IsName text.now }
        ensures ok { IfOk result (λ name. name ≡ text.now) }
    {
        if !is_name(text.as_bytes()) {
            return Err(NameFault);
        }
        let Ok(text) = ArrayString::from(text) else {
            unreachable!()
        };
        Ok(Name {
            text,
            of: PhantomData,
        })
    }

    /// The name that a text is. The text is known to be one. Takes no memory.
    pub fn known(text: &str) -> Name<K>
        requires { IsName text.now }
        ensures { result ≡ text.now }
    {
        match Name::new(text) {
            Ok(name) => name,
            Err(_) => unreachable!(),
        }
    }

    /// The text of the name.
    pub fn as_str(&self) -> &str
        ensures text { result.now ≡ self.now }
        ensures name { IsName self.now }
    {
        self.text.as_str()
    }

    /// A copy. Takes no memory.
    pub fn copy(&self) -> Name<K>
        ensures { result ≡ self.now }
    {
        Name {
            text: self.text,
            of: PhantomData,
        }
    }
}

impl<K> PartialEq for Name<K> {
    ghost eq = { pointwise nat_eq };

    ghost laws = { partial_equiv_from_equiv nat_list_eq_equiv };

    fn eq(&self, other: &Self) -> bool {
        self.text.as_str() == other.text.as_str()
    }
}

impl<K> Eq for Name<K> {
    ghost laws = { nat_list_eq_equiv };
}

impl<K> PartialOrd for Name<K> {
    ghost partial_cmp = { λ a b. Some (slice_cmp nat_cmp a b) };

    ghost laws = { texts_po };

    fn partial_cmp(&self, other: &Self) -> Option<Ordering> {
        Some(self.cmp(other))
    }
}

impl<K> Ord for Name<K> {
    ghost cmp = { slice_cmp nat_cmp };

    ghost total = { nat_list_cmp_total };

    ghost matches_partial_cmp = { λ a b. refl };

    ghost matches_eq = { texts_ties };

    fn cmp(&self, other: &Self) -> Ordering {
        self.text.as_str().cmp(other.text.as_str())
    }
}

impl<K> Hash for Name<K> {
    ghost hash_input = { fed.str };

    ghost respects_eq = { Prim.search (hashing, rules) };

    fn hash<H: Hasher>(&self, state: &mut H) {
        self.text.as_str().hash(state);
    }
}

impl<K> fmt::Display for Name<K> {
    ghost output = { λ n. Some n };

    fn fmt<W: fmt::Write>(&self, f: &mut fmt::Formatter<W>) -> fmt::Result {
        f.write_str(self.text.as_str())
    }
}

impl<K> fmt::Debug for Name<K> {
    fn fmt<W: fmt::Write>(&self, f: &mut fmt::Formatter<W>) -> fmt::Result {
        fmt::Debug::fmt(&self.text.as_str(), f)
    }
}
