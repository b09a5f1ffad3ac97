//! What the first CCR of a session tells beside it.

ghost use Rattle.std.specs.Prelude.{◌≡◌, ◌↔◌, ◌++◌, IfOk, IfSome, IsSome, OnOk, option_map};
ghost use Rattle.pcef_diameter.specs.Spellings.{avps_octets};
ghost use Rattle.pcef_gx_node.specs.Accesses.{AreShort, IsShort, access_octets, imsi_avp, is_short, known_avp};

use pcef_gx::code::DESTINATION_HOST;
use pcef_gx::{Code, put_number, put_octets};
use pcef_gx_messages::MAX_OCTETS;
use std::alloc::{AllocError, Global};
use std::marker::Model;

/// Called-Station-Id.
const CALLED_STATION_ID: Code = Code {
    vendor: 0,
    number: 30,
};

/// Subscription-Id.
const SUBSCRIPTION_ID: Code = Code {
    vendor: 0,
    number: 443,
};

/// Subscription-Id-Data.
const SUBSCRIPTION_ID_DATA: Code = Code {
    vendor: 0,
    number: 444,
};

/// Subscription-Id-Type.
const SUBSCRIPTION_ID_TYPE: Code = Code {
    vendor: 0,
    number: 450,
};

/// The Subscription-Id-Type END_USER_IMSI.
const END_USER_IMSI: u32 = 1;

/// What the first CCR of a session tells beside it, where it is known: the host of the PCRF, the APN, and the IMSI of
/// the subscriber. Each has at most 1,024 octets. Contracts see the octets.
#[derive(Drop)]
pub struct Access<'a> {
    destination_host: Option<&'a [u8]>,
    apn: Option<&'a [u8]>,
    imsi: Option<&'a [u8]>,
}

impl<'a> Model for Access<'a> {
    ghost use Rattle.std.specs.Prelude.{option_map};
    ghost use Rattle.pcef_gx_node.specs.Accesses.{AreShort, Told};

    ghost Value = { Told };

    ghost view = { λ a. record {
      destination_host = option_map (λ o. o.now) a.destination_host;
      apn = option_map (λ o. o.now) a.apn;
      imsi = option_map (λ o. o.now) a.imsi;
    } };

    ghost invariant = { λ a. AreShort (record {
      destination_host = option_map (λ o. o.now) a.destination_host;
      apn = option_map (λ o. o.now) a.apn;
      imsi = option_map (λ o. o.now) a.imsi;
    }) };
}

/// Whether octets are none, or at most 1,024.
fn is_short(octets: Option<&[u8]>) -> bool
    ensures { result ≡ is_short (option_map (λ o. o.now) octets.entry) }
{
    match octets {
        Some(octets) => octets.len() <= MAX_OCTETS,
        None => true,
    }
}

/// Writes an AVP of octets, where there are any.
fn put_known(out: &mut Vec<u8>, code: Code, octets: Option<&[u8]>) -> Result<(), AllocError>
    requires { IsShort (option_map (λ o. o.now) octets) }
    ensures { OnOk result (out.new.items ≡ out.old.items
        ++ avps_octets (known_avp code (option_map (λ o. o.now) octets.entry))) }
{
    match octets {
        Some(octets) => put_octets(out, code, octets),
        None => Ok(()),
    }
}

/// Writes the Subscription-Id of an IMSI, where there is one.
fn put_imsi(alloc: Global, out: &mut Vec<u8>, imsi: Option<&[u8]>) -> Result<(), AllocError>
    requires { IsShort (option_map (λ o. o.now) imsi) }
    ensures { OnOk result (out.new.items ≡ out.old.items
        ++ avps_octets (imsi_avp (option_map (λ o. o.now) imsi.entry))) }
{
    let Some(imsi) = imsi else {
        return Ok(());
    };
    let mut parts = Vec::new(alloc);
    put_number(&mut parts, SUBSCRIPTION_ID_TYPE, END_USER_IMSI)?;
    put_octets(&mut parts, SUBSCRIPTION_ID_DATA, imsi)?;
    put_octets(out, SUBSCRIPTION_ID, &parts)
}

impl<'a> Access<'a> {
    /// The access of these parts; none where one has more than 1,024 octets. Takes no memory.
    pub fn new(
        destination_host: Option<&'a [u8]>,
        apn: Option<&'a [u8]>,
        imsi: Option<&'a [u8]>,
    ) -> Option<Access<'a>>
        ensures some { IsSome result ↔ AreShort (record {
          destination_host = option_map (λ o. o.now) destination_host.entry;
          apn = option_map (λ o. o.now) apn.entry;
          imsi = option_map (λ o. o.now) imsi.entry;
        }) }
        ensures parts { IfSome result (λ a. a ≡ record {
          destination_host = option_map (λ o. o.now) destination_host.entry;
          apn = option_map (λ o. o.now) apn.entry;
          imsi = option_map (λ o. o.now) imsi.entry;
        }) }
    {
        if !(is_short(destination_host) && is_short(apn) && is_short(imsi)) {
            return None;
        }
        Some(Access {
            destination_host,
            apn,
            imsi,
        })
    }

    /// Its AVPs, as octets: Destination-Host, Subscription-Id and Called-Station-Id, each where it is known. Takes
    /// memory; an `Err` is want of it.
    pub fn avps(&self, alloc: Global) -> Result<Vec<u8>, AllocError>
        ensures { IfOk result (λ avps. avps.items ≡ access_octets self.now) }
    {
        let mut avps = Vec::new(alloc);
        put_known(&mut avps, DESTINATION_HOST, self.destination_host)?;
        put_imsi(alloc, &mut avps, self.imsi)?;
        put_known(&mut avps, CALLED_STATION_ID, self.apn)?;
        Ok(avps)
    }
}
