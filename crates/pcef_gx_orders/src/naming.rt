//! Orders with the names of their rules and keys as they stood in the message.

ghost use Rattle.std.specs.Prelude.{◌≡◌, IfOk};
ghost use Rattle.pcef_gx_orders.specs.Naming.{name_given};

use pcef_gx::{Order, octets_of};
use std::alloc::{AllocError, Global};
use std::marker::Model;

/// An order, and the name of its rule or monitoring key as it stood in the message. Contracts see the order.
#[derive(Drop)]
pub struct NamedOrder<'m> {
    order: Order<'m>,
    name: Vec<u8>,
}

impl<'m> Model for NamedOrder<'m> {
    ghost use Rattle.std.specs.Prelude.{◌≡◌};
    ghost use Rattle.pcef_gx.specs.declared.order.Order.{Order};
    ghost use Rattle.pcef_gx_orders.specs.Naming.{name_given};

    ghost Value = { Order };

    ghost view = { λ n. n.order };

    ghost invariant = { λ n. n.name.items ≡ name_given n.order };
}

/// The name of the rule or key in an order, as it stood; no octets where the order has none.
fn name_given(alloc: Global, order: &Order) -> Result<Vec<u8>, AllocError>
    ensures { IfOk result (λ name. name.items ≡ name_given order.now) }
{
    match order {
        Order::Remove(name) => octets_of(alloc, name.as_str().as_bytes()),
        Order::Activate(name) => octets_of(alloc, name.as_str().as_bytes()),
        Order::Install(change) => octets_of(alloc, change.name.as_str().as_bytes()),
        Order::Unable { name, .. } => Vec::from_slice(alloc, name.octets()),
        Order::Monitor { key, .. } => octets_of(alloc, key.as_str().as_bytes()),
        Order::Stop(key) => octets_of(alloc, key.as_str().as_bytes()),
        Order::ReportNow(key) => octets_of(alloc, key.as_str().as_bytes()),
        Order::Triggers(_) | Order::ReportAll => Ok(Vec::new(alloc)),
    }
}

impl<'m> NamedOrder<'m> {
    /// An order with its name. Takes memory.
    fn new(alloc: Global, order: Order<'m>) -> Result<NamedOrder<'m>, AllocError>
        ensures { IfOk result (λ named. named ≡ order.entry) }
    {
        let name = name_given(alloc, &order)?;
        Ok(NamedOrder { order, name })
    }

    /// The order. Takes no memory.
    pub fn order(&self) -> &Order<'m>
        ensures { result.now ≡ self.now }
    {
        &self.order
    }

    /// The name of its rule or key, as it stood; no octets where it has none. Takes no memory.
    pub fn name(&self) -> &[u8]
        ensures { result.now ≡ name_given self.now }
    {
        &self.name
    }
}

/// The same orders, each with the name of its rule or key as it stood in the message. Takes memory for them.
pub fn with_names<'m>(
    alloc: Global,
    orders: Vec<Order<'m>>,
) -> Result<Vec<NamedOrder<'m>>, AllocError>
    ensures { IfOk result (λ named. named.items ≡ orders.entry.items) }
{
    let mut named = Vec::with_capacity(alloc, orders.len())?;
    for order in orders {
        named.push(NamedOrder::new(alloc, order)?)?;
    }
    Ok(named)
}
