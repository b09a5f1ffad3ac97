//! What a catalog offers, with no closure to be seen.

ghost use Rattle.std.specs.Prelude.{◌≡◌, ◌<◌, ◌≤◌, IfOk, IfSome, find, length, slice_get};
ghost use Rattle.std.specs.Option.{option_and_then};
ghost use Rattle.pcef_catalog.specs.Offers.{is_offer_of, most_offers};

use crate::catalog::Offers;
use crate::shape::Shape;
use pcef_rule::{Properties, RuleName};
use std::alloc::{AllocError, Global};
use std::marker::Model;
use std::sync::Arc;

/// The most rules that a catalog may have.
pub const MAX_OFFERS: usize = 32;

/// A predefined rule without its closure: its properties and what it detects.
#[derive(Debug, Drop)]
pub struct Offer {
    /// The properties.
    pub properties: Properties,
    /// The shape that the rule's closure answers by.
    pub shape: Shape,
}

/// The predefined rules of a catalog, in order, without their closures. Copies share them. Contracts
/// see the list of the offers.
pub struct Listing {
    offers: Arc<Vec<Offer>>,
}

// Written out, so that an owner proves one call on each return path.
impl Drop for Listing {
    fn drop(self) {
        let Listing { offers: _ } = self;
    }
}

impl Model for Listing {
    ghost use Rattle.std.specs.Arc.{arc_value};
    ghost use Rattle.std.specs.Prelude.{List, length, ◌≤◌};
    ghost use Rattle.pcef_catalog.specs.declared.listing.Offer.{Offer};
    ghost use Rattle.pcef_catalog.specs.Offers.{most_offers};

    ghost Value = { List Offer };

    ghost view = { λ l. (arc_value l.offers).items };

    ghost invariant = { λ l. length (arc_value l.offers).items ≤ most_offers };
}

impl Listing {
    /// The listing of these rules, at most 32. Fails when out of memory.
    pub fn new(alloc: Global, offers: Vec<Offer>) -> Result<Listing, AllocError>
        requires { length offers.items ≤ most_offers }
        ensures { IfOk result (λ l. l ≡ offers.items) }
    {
        Ok(Listing {
            offers: Arc::new(alloc, offers)?,
        })
    }

    /// A copy, which shares the same rules. Fails when out of memory.
    pub fn share(&self) -> Result<Listing, AllocError>
        ensures { IfOk result (λ l. l ≡ self.now) }
    {
        Ok(Listing {
            offers: Arc::try_clone(&self.offers)?,
        })
    }

    /// The rules.
    pub fn offers(&self) -> &[Offer]
        ensures { result.now ≡ self.now }
    {
        self.offers.as_slice()
    }

    /// The place of the rule of a name.
    pub fn index_of(&self, name: &RuleName) -> Option<u8>
        ensures offer { option_and_then (λ index. slice_get self.now index) result
            ≡ find (is_offer_of name.now) self.now }
        ensures within { IfSome result (λ index. index < length self.now) }
    {
        match place_of(&self.offers, name) {
            Some(place) => Some(place as u8),
            None => None,
        }
    }
}

fn has_name(offer: &Offer, name: &RuleName) -> bool
    ensures { result ≡ is_offer_of name.now offer.now }
{
    offer.properties.name == *name
}

/// The first place of a name among rules.
fn place_of(offers: &[Offer], name: &RuleName) -> Option<usize>
    ensures offer { option_and_then (λ place. slice_get offers.now place) result
        ≡ find (is_offer_of name.now) offers.now }
    ensures within { IfSome result (λ place. place < length offers.now) }
{
    for (place, offer) in offers.iter().enumerate() {
        if has_name(offer, name) {
            return Some(place);
        }
    }
    None
}

/// A listing lists what its catalog offers. It holds no closure, so it judges no packet.
impl Offers for Listing {
    ghost offers = { λ offers. offers };

    fn listing(&self) -> &Listing {
        self
    }
}
