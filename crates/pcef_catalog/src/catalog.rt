//! The catalog of predefined rules.

ghost use Rattle.std.specs.Prelude.{◌≡◌, ◌<◌, IfOk, IfSome, List, find, length, slice_get};
ghost use Rattle.std.specs.Option.{option_and_then};
ghost use Rattle.std.specs.Result.{result_err};
ghost use Rattle.pcef_catalog.specs.PlainRules.{offers_in};
ghost use Rattle.pcef_catalog.specs.Offers.{Makes, is_offer_of};
ghost use Rattle.pcef_catalog.specs.Shapes.{detected};
ghost use Rattle.pcef_catalog.specs.declared.listing.Offer.{Offer};

use crate::listing::{Listing, MAX_OFFERS};
use crate::places::{are_distinct, detects_at, listing_of};
use crate::predefined::Predefined;
use pcef_packet::Header;
use pcef_rule::RuleName;
use std::alloc::{AllocError, Global};
use thiserror::Error;

/// What lists predefined rules. It says nothing of packets: [`Detects`] does.
pub trait Offers {
    /// The predefined rules, in order.
    ghost offers: { Self → List Offer };

    /// The rules, without their closures.
    fn listing(&self) -> &Listing
        ensures { result.now ≡ offers self.now };
}

/// What judges packets by predefined rules takes a catalog through this trait: the rules' closures detect.
pub trait Detects: Offers {
    /// Whether the closure of the rule at this place of the listing detects a header. Places count from 0; where no
    /// rule stands, the answer is no.
    fn detects(&self, index: u8, header: &Header) -> bool
        ensures { result ≡ detected (Self.offers self.now) index header.now };
}

/// Why rules make no catalog: the first fault in this order.
#[derive(Clone, Copy, Debug, PartialEq, Eq, Error)]
pub enum CatalogFault {
    /// Two rules have one name.
    #[error("two predefined rules have one name")]
    SameName,
    /// There are more than 32 rules.
    #[error("there are more than 32 predefined rules")]
    TooMany,
    /// There is no memory left.
    #[error("there is no memory left")]
    NoMemory,
}

/// The predefined rules of a gateway: at most 32, with distinct names.
pub struct Catalog {
    rules: Vec<Predefined>,
    listing: Listing,
    ghost listed: { listing ≡ offers_in rules.items },
}

// Written out, so that an owner proves one call on each return path.
impl Drop for Catalog {
    fn drop(self) {
        let Catalog {
            rules: _,
            listing: _,
        } = self;
    }
}

impl Catalog {
    ghost use Rattle.pcef_catalog.specs.Catalogs.{offers_of};

    /// The catalog of these rules, in their order, or the first fault in the order of [`CatalogFault`].
    /// Takes memory for the listing.
    pub fn new(alloc: Global, rules: Vec<Predefined>) -> Result<Catalog, CatalogFault>
        ensures answer { Makes (offers_in rules.items) (result_err result) }
        ensures made { IfOk result (λ c. offers_of c ≡ offers_in rules.items) }
    {
        if !are_distinct(&rules) {
            return Err(CatalogFault::SameName);
        }
        if rules.len() > MAX_OFFERS {
            return Err(CatalogFault::TooMany);
        }
        let Ok(listing) = listing_of(alloc, &rules) else {
            return Err(CatalogFault::NoMemory);
        };
        Ok(Catalog { rules, listing })
    }

    /// The place of the rule of a name.
    pub fn index_of(&self, name: &RuleName) -> Option<u8>
        ensures offer { option_and_then (λ index. slice_get (offers_of self.now) index) result
            ≡ find (is_offer_of name.now) (offers_of self.now) }
        ensures within { IfSome result (λ index. index < length (offers_of self.now)) }
    {
        self.listing.index_of(name)
    }
}

impl Offers for Catalog {
    ghost use Rattle.pcef_catalog.specs.Catalogs.{offers_of};

    ghost offers = { offers_of };

    fn listing(&self) -> &Listing {
        &self.listing
    }
}

impl Detects for Catalog {
    fn detects(&self, index: u8, header: &Header) -> bool {
        detects_at(&self.rules, index, header)
    }
}
