//! The built-in rules as a catalog without closures.

ghost use Rattle.std.specs.Prelude.{◌≡◌, [], IfOk};
ghost use Rattle.pcef_built_in.specs.BuiltIn.{built_in_offers};

use crate::rules::{
    dns_properties, dns_shape, expedited_properties, expedited_shape, remaining_properties,
    remaining_shape,
};
use pcef_catalog::{Detects, Listing, Offer, Offers};
use pcef_packet::Header;
use std::alloc::{AllocError, Global};
use std::marker::Model;

/// A catalog whose rules answer by their shapes. It holds no closure, so it is plain data, which a library for C
/// may keep. Contracts see what it offers.
pub struct ShapedCatalog {
    listing: Listing,
}

// Written out, so that an owner proves one call on each return path.
impl Drop for ShapedCatalog {
    fn drop(self) {
        let ShapedCatalog { listing: _ } = self;
    }
}

impl Model for ShapedCatalog {
    ghost use Rattle.std.specs.Prelude.{List};
    ghost use Rattle.pcef_catalog.specs.declared.listing.Offer.{Offer};

    ghost Value = { List Offer };

    ghost view = { λ c. c.listing };
}

/// The built-in rules, in order.
fn built_in_rules(alloc: Global) -> Result<Vec<Offer>, AllocError>
    ensures { IfOk result (λ rules. rules.items ≡ built_in_offers) }
{
    let mut rules = Vec::with_capacity(alloc, 3)?;
    rules.push(Offer {
        properties: dns_properties(),
        shape: dns_shape(),
    })?;
    rules.push(Offer {
        properties: expedited_properties(),
        shape: expedited_shape(),
    })?;
    rules.push(Offer {
        properties: remaining_properties(),
        shape: remaining_shape(),
    })?;
    Ok(rules)
}

impl ShapedCatalog {
    /// The catalog of the built-in rules, which the program `pcef` has too. Fails when out of memory.
    pub fn built_in(alloc: Global) -> Result<ShapedCatalog, AllocError>
        ensures { IfOk result (λ c. c ≡ built_in_offers) }
    {
        Ok(ShapedCatalog {
            listing: Listing::new(alloc, built_in_rules(alloc)?)?,
        })
    }

    /// The same catalog for one more owner, which shares its rules. Fails when out of memory.
    pub fn share(&self) -> Result<ShapedCatalog, AllocError>
        ensures { IfOk result (λ c. c ≡ self.now) }
    {
        Ok(ShapedCatalog {
            listing: self.listing.share()?,
        })
    }
}

impl Offers for ShapedCatalog {
    ghost offers = { λ offers. offers };

    fn listing(&self) -> &Listing {
        &self.listing
    }
}

impl Detects for ShapedCatalog {
    fn detects(&self, index: u8, header: &Header) -> bool {
        match self.listing.offers().get(usize::from(index)) {
            Some(offer) => offer.shape.holds(header),
            None => false,
        }
    }
}
