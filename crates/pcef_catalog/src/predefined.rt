//! Predefined rules.

ghost use Rattle.std.specs.Prelude.{◌≡◌, Bool};
ghost use Rattle.pcef_catalog.specs.Shapes.{shape_holds};

use crate::shape::Shape;
use pcef_packet::Header;
use pcef_rule::Properties;

/// Returns whether a packet is of a rule's traffic.
pub type Detect = Box<dyn Fn(&Header) -> bool + Send + Sync>;

/// A rule that stands in the catalog, with the closure that detects its packets (TS 23.203, clause 6.2.2.2).
pub struct Predefined {
    properties: Properties,
    shape: Shape,
    detect: Detect,
    ghost callable: { Detect.IsAlwaysCallable detect },
    ghost exact: { (at : _) (r : Bool) → Detect.post detect at r → r ≡ shape_holds shape at.now },
}

// Written out, so that an owner proves one call on each return path.
impl Drop for Predefined {
    fn drop(self) {
        let Predefined {
            properties: _,
            shape: _,
            detect: _,
        } = self;
    }
}

impl Predefined {
    ghost use Rattle.pcef_catalog.specs.PlainRules.{offer_of};

    /// The rule with these parts. Whoever makes one proves two things of its closure: it takes any header, and its
    /// answer is the shape's. Takes no memory.
    pub fn new(properties: Properties, shape: Shape, detect: Detect) -> Predefined
        requires callable { Detect.IsAlwaysCallable detect }
        requires exact { (at : _) (r : Bool) → Detect.post detect at r →
            r ≡ shape_holds shape at.now }
        ensures { offer_of result ≡ record { properties = properties; shape = shape } }
    {
        Predefined {
            properties,
            shape,
            detect,
        }
    }

    /// Calls the closure.
    pub fn detects(&self, header: &Header) -> bool
        ensures { result ≡ shape_holds (offer_of self.now).shape header.now }
    {
        (self.detect)(header)
    }

    /// The properties.
    pub fn properties(&self) -> &Properties
        ensures { result.now ≡ (offer_of self.now).properties }
    {
        &self.properties
    }

    /// The shape that the closure answers by.
    pub fn shape(&self) -> &Shape
        ensures { result.now ≡ (offer_of self.now).shape }
    {
        &self.shape
    }
}
