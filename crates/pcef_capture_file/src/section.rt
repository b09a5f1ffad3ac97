//! The sections of pcapng files and their interfaces.

ghost use Rattle.std.specs.Prelude.{◌≡◌, ◌≤◌, ◌⊎◌, IfErr, OnOk, Ok as DueOk, Err as DueErr, length};
ghost use Rattle.pcef_capture_file.specs.declared.fault.CaptureFault.TheVariants.{NoMemory};
ghost use Rattle.pcef_capture_file.specs.Blocks.{framed};
ghost use Rattle.pcef_capture_file.specs.Sections.{described_in, interface_in, is_section_version, noted, section_after, section_in, standing};

use crate::blocks::{Block, SECTION_HEADER};
use crate::endianness::Endianness;
use crate::fault::CaptureFault;
use crate::link::Link;
use crate::options::clock_of;
use crate::time::Clock;

/// The type of an interface description.
const INTERFACE_DESCRIPTION: u32 = 1;

/// The most interfaces of a section.
const MAX_INTERFACES: usize = 65_536;

/// An interface of a section.
#[derive(Clone, Copy)]
pub(crate) struct Interface {
    /// The header that its frames begin with.
    pub link: Link,
    /// How many octets of a frame are recorded at most; 0 is no limit.
    pub snap_len: u32,
    /// How it counts time.
    pub clock: Clock,
}

/// The state of a section.
#[derive(Drop)]
pub(crate) struct Section {
    /// The order of its numbers.
    pub endianness: Endianness,
    /// The interfaces that were described so far.
    pub interfaces: Vec<Interface>,
}

/// Whether a section header states a version that is read.
#[tactic(auto, unfolding(crate::specs::Sections::is_section_version))]
fn is_section_version(block: &Block<'_>) -> bool
    requires { 16 ≤ length block.now.body.now }
    ensures { result ≡ is_section_version (framed block.now) }
{
    let major = block.endianness.number_in_2(block.body, 4);
    let minor = block.endianness.number_in_2(block.body, 6);
    major == 1 && (minor == 0 || minor == 2)
}

/// The interface of a description.
#[tactic(auto, unfolding(crate::specs::Sections::interface_in))]
fn interface_in(block: &Block<'_>) -> Result<Interface, CaptureFault>
    ensures { result ≡ interface_in (framed block.now) }
{
    if block.body.len() < 8 {
        return Err(CaptureFault::BlockLength);
    }
    let number = block.endianness.number_in_2(block.body, 0);
    match Link::of_number(u32::from(number)) {
        Some(link) => Ok(Interface {
            link,
            snap_len: block.endianness.number_in_4(block.body, 4),
            clock: clock_of(block.endianness, block.body.split_at(8).1),
        }),
        None => Err(CaptureFault::LinkType),
    }
}

impl Section {
    /// Begins the section of a header. An `Err` is `BlockLength` or `Version`.
    #[tactic(auto, unfolding(crate::specs::Sections::section_in))]
    fn begin(&mut self, block: &Block<'_>) -> Result<(), CaptureFault>
        ensures ok { OnOk result (section_in (framed block.now) ≡ DueOk (standing self.new)) }
        ensures fault { IfErr result (λ fault. section_in (framed block.now) ≡ DueErr fault) }
    {
        if block.body.len() < 16 {
            return Err(CaptureFault::BlockLength);
        }
        if !is_section_version(block) {
            return Err(CaptureFault::Version);
        }
        self.endianness = block.endianness;
        self.interfaces.clear();
        Ok(())
    }

    /// Appends an interface. An `Err` is `TooManyInterfaces` or `NoMemory`.
    #[tactic(auto, unfolding(crate::specs::Sections::noted))]
    fn note(&mut self, interface: Interface) -> Result<(), CaptureFault>
        ensures ok { OnOk result (noted (standing self.old) interface ≡ DueOk (standing self.new)) }
        ensures fault { IfErr result (λ fault. (fault ≡ NoMemory)
            ⊎ (noted (standing self.old) interface ≡ DueErr fault)) }
    {
        if self.interfaces.len() >= MAX_INTERFACES {
            return Err(CaptureFault::TooManyInterfaces);
        }
        match self.interfaces.push(interface) {
            Ok(()) => Ok(()),
            Err(_) => Err(CaptureFault::NoMemory),
        }
    }

    /// Appends the interface of a description. An `Err` is `BlockLength`, `LinkType`, `TooManyInterfaces` or
    /// `NoMemory`.
    #[tactic(auto, unfolding(crate::specs::Sections::described_in))]
    fn describe(&mut self, block: &Block<'_>) -> Result<(), CaptureFault>
        ensures ok { OnOk result (
            described_in (standing self.old) (framed block.now) ≡ DueOk (standing self.new)) }
        ensures fault { IfErr result (λ fault. (fault ≡ NoMemory)
            ⊎ (described_in (standing self.old) (framed block.now) ≡ DueErr fault)) }
    {
        self.note(interface_in(block)?)
    }

    /// Updates the section by a block. An `Err` is the fault of the block, or `NoMemory`.
    #[tactic(auto, unfolding(crate::specs::Sections::section_after))]
    pub(crate) fn take_in(&mut self, block: &Block<'_>) -> Result<(), CaptureFault>
        ensures ok { OnOk result (
            section_after (standing self.old) (framed block.now) ≡ DueOk (standing self.new)) }
        ensures fault { IfErr result (λ fault. (fault ≡ NoMemory)
            ⊎ (section_after (standing self.old) (framed block.now) ≡ DueErr fault)) }
    {
        match block.kind {
            SECTION_HEADER => self.begin(block),
            INTERFACE_DESCRIPTION => self.describe(block),
            _ => Ok(()),
        }
    }
}
