//! The sieves of all kinds of packets.

ghost use Rattle.std.specs.Prelude.{IfOk};
ghost use Rattle.pcef_index.specs.private.AllSieves.{AreServed, ServeClasses, ServeVersions};

use crate::by_kind::{ByClass, ByKind, ByVersion};
use crate::ends::Ends;
use crate::kinds::{Class, Kind, Version};
use crate::lines::Line;
use crate::sieve::Sieve;
use pcef_packet::Dir;
use std::alloc::{AllocError, Global};

/// A sieve for each kind of packets; none where no line may fit.
pub(crate) type Sieves = ByKind<Option<Box<Sieve>>>;

/// The sieves of a direction and a version.
fn sieves_by_class(
    alloc: Global,
    dir: Dir,
    version: Version,
    lines: &[Line],
    ends: &mut Ends,
) -> Result<ByClass<Option<Box<Sieve>>>, AllocError>
    ensures { IfOk result (ServeClasses lines.now dir version) }
{
    let kind = |class| Kind {
        dir,
        version,
        class,
    };
    let tcp = Sieve::new(alloc, kind(Class::Tcp), lines, ends)?;
    let udp = Sieve::new(alloc, kind(Class::Udp), lines, ends)?;
    let other = Sieve::new(alloc, kind(Class::Other), lines, ends)?;
    Ok(ByClass { tcp, udp, other })
}

/// The sieves of a direction.
fn sieves_by_version(
    alloc: Global,
    dir: Dir,
    lines: &[Line],
    ends: &mut Ends,
) -> Result<ByVersion<Option<Box<Sieve>>>, AllocError>
    ensures { IfOk result (ServeVersions lines.now dir) }
{
    let narrow = sieves_by_class(alloc, dir, Version::V4, lines, ends)?;
    let wide = sieves_by_class(alloc, dir, Version::V6, lines, ends)?;
    Ok(ByVersion { narrow, wide })
}

/// The sieves of some lines. Fails when out of memory.
pub(crate) fn sieves_of(alloc: Global, lines: &[Line]) -> Result<Sieves, AllocError>
    ensures { IfOk result (AreServed lines.now) }
{
    let mut ends = Ends::none(alloc)?;
    let uplink = sieves_by_version(alloc, Dir::Up, lines, &mut ends)?;
    let downlink = sieves_by_version(alloc, Dir::Down, lines, &mut ends)?;
    Ok(ByKind { uplink, downlink })
}
