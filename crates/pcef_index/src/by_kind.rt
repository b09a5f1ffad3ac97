//! Something for each kind of packets.

ghost use Rattle.std.specs.Prelude.{◌≡◌};
ghost use Rattle.pcef_index.specs.private.ByKinds.{in_class, in_version, of_kind};

use crate::kinds::{Class, Kind, Version};
use pcef_packet::Dir;

/// One for each class of protocols.
#[derive(Drop)]
pub(crate) struct ByClass<T: Drop> {
    /// TCP.
    pub tcp: T,
    /// UDP.
    pub udp: T,
    /// The other protocols.
    pub other: T,
}

/// Those of both versions.
#[derive(Drop)]
pub(crate) struct ByVersion<T: Drop> {
    /// Version 4.
    pub narrow: ByClass<T>,
    /// Version 6.
    pub wide: ByClass<T>,
}

/// Those of both directions: one for each kind.
#[derive(Drop)]
pub(crate) struct ByKind<T: Drop> {
    /// Uplink.
    pub uplink: ByVersion<T>,
    /// Downlink.
    pub downlink: ByVersion<T>,
}

impl<T: Drop> ByClass<T> {
    /// That of a class.
    #[inline(always)]
    fn of(&self, class: Class) -> &T
        ensures { result.now ≡ in_class self.now class }
    {
        match class {
            Class::Tcp => &self.tcp,
            Class::Udp => &self.udp,
            Class::Other => &self.other,
        }
    }
}

impl<T: Drop> ByVersion<T> {
    /// Those of a version.
    #[inline(always)]
    fn of(&self, version: Version) -> &ByClass<T>
        ensures { result.now ≡ in_version self.now version }
    {
        match version {
            Version::V4 => &self.narrow,
            Version::V6 => &self.wide,
        }
    }
}

impl<T: Drop> ByKind<T> {
    /// That of a kind.
    #[inline(always)]
    pub(crate) fn of(&self, kind: Kind) -> &T
        ensures { result.now ≡ of_kind self.now kind }
    {
        let by_version = match kind.dir {
            Dir::Up => &self.uplink,
            Dir::Down => &self.downlink,
        };
        by_version.of(kind.version).of(kind.class)
    }
}
