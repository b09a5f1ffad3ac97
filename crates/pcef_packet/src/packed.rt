//! Headers that are kept in great numbers. Their addresses are octets, which may stand anywhere: a number of 128
//! bits has to stand at a multiple of 16 octets.

ghost use Rattle.std.specs.Prelude.{◌≡◌};
ghost use Rattle.pcef_packet.specs.private.PackedHeaders.{addr_of};

use crate::header::{Addr, Dir, Header, Ports};
use byteorder::{BigEndian, ByteOrder};
use std::marker::Model;
use std::mem::size_of;

/// The octets of an address, in the order of the packet.
#[derive(Drop)]
pub(crate) enum PackedAddr {
    /// Those of version 4.
    V4([u8; 4]),
    /// Those of version 6.
    V6([u8; 16]),
}

impl PackedAddr {
    fn new(addr: Addr) -> PackedAddr
        ensures { addr_of result ≡ addr }
    {
        match addr {
            Addr::V4(number) => {
                let mut octets = [0; 4];
                BigEndian::write_u32(&mut octets, number);
                PackedAddr::V4(octets)
            }
            Addr::V6(number) => {
                let mut octets = [0; 16];
                BigEndian::write_u128(&mut octets, number);
                PackedAddr::V6(octets)
            }
        }
    }

    fn addr(&self) -> Addr
        ensures { result ≡ addr_of self.now }
    {
        match self {
            PackedAddr::V4(octets) => Addr::V4(BigEndian::read_u32(octets)),
            PackedAddr::V6(octets) => Addr::V6(BigEndian::read_u128(octets)),
        }
    }
}

/// A header in 48 octets, where a [`Header`] takes 80. Contracts see it as the header.
#[derive(Drop)]
pub struct PackedHeader {
    octets: u32,
    ports: Option<Ports>,
    src: PackedAddr,
    dst: PackedAddr,
    dir: Dir,
    proto: u8,
    dscp: u8,
}

const _: () = prove!(size_of::<PackedHeader>() == 48);

impl Model for PackedHeader {
    ghost use Rattle.pcef_packet.specs.declared.header.Header.{Header};

    ghost Value = { Header };

    ghost use Rattle.pcef_packet.specs.private.PackedHeaders.{header_of};

    ghost view = { header_of };
}

impl PackedHeader {
    /// The header, packed. Takes no memory.
    pub fn new(header: &Header) -> PackedHeader
        ensures { result ≡ header.now }
    {
        PackedHeader {
            octets: header.octets,
            ports: header.ports,
            src: PackedAddr::new(header.src),
            dst: PackedAddr::new(header.dst),
            dir: header.dir,
            proto: header.proto,
            dscp: header.dscp,
        }
    }

    /// The header, as it was before. Takes no memory.
    pub fn header(&self) -> Header
        ensures { result ≡ self.now }
    {
        Header {
            src: self.src.addr(),
            dst: self.dst.addr(),
            octets: self.octets,
            ports: self.ports,
            dir: self.dir,
            proto: self.proto,
            dscp: self.dscp,
        }
    }
}
