//! The publisher of a session, and the subscribers that no worker has yet.

ghost use Rattle.std.specs.Prelude.{◌≡◌, ◌<◌, ◌++◌, ◌∷◌, [], IfSome, OnErr, OnOk, length};
ghost use Rattle.std.specs.Option.{option_to_list};
ghost use Rattle.pcef_session.specs.Preparing.{table_made};
ghost use Rattle.pcef_lock.specs.Published.{MayBeNext, with_last};

use pcef_journaled::JournaledCommand;
use pcef_publish::{Board, Cell, Publisher, Subscriber};
use pcef_share::Naming;
use std::alloc::AllocError;
use std::sync::Arc;

/// What publishes a session's tables, and who reads them.
#[derive(Drop)]
pub(crate) struct Publishing<N: Naming, W: Board<Cell<N>> + Drop> {
    /// Publishes the tables.
    pub(crate) publisher: Publisher<N, W>,
    /// A subscriber for each place.
    pub(crate) subscribers: Vec<Subscriber<N>>,
}

/// Publishes the table of a prepared command, if it makes one.
pub(crate) fn publish<N: Naming, W: Board<Cell<N>> + Drop>(
    publisher: &mut Publisher<N, W>,
    prepared: &JournaledCommand,
) -> Result<(), AllocError>
    requires { IfSome (table_made prepared.now) (MayBeNext N.setting N.first publisher.old) }
    ensures published { OnOk result (publisher.new
        ≡ publisher.old ++ option_to_list (table_made prepared.now)) }
    ensures refused { OnErr result (publisher.new ≡ publisher.old) }
{
    match prepared.prepared().indexed() {
        Some(table) => publisher.publish(Arc::try_clone(table)?),
        None => Ok(()),
    }
}

/// Lets the subscriber of the next worker take the newest table.
pub(crate) fn make_ready<N: Naming, W: Board<Cell<N>> + Drop>(
    subscribers: &mut Vec<Subscriber<N>>,
    publisher: &mut Publisher<N, W>,
) -> Result<(), AllocError>
    requires { 0 < length subscribers.old.items }
    ensures many { length subscribers.new.items ≡ length subscribers.old.items }
    ensures ready { OnOk result (subscribers.new.items
        ≡ with_last subscribers.old.items publisher.old) }
    ensures publisher { publisher.new ≡ publisher.old }
{
    let last = subscribers.len() - 1;
    subscribers[last].meet(publisher)
}

/// Takes out the subscriber of the next worker.
pub(crate) fn next_subscriber<N: Naming>(subscribers: &mut Vec<Subscriber<N>>) -> Subscriber<N>
    requires { 0 < length subscribers.old.items }
    ensures items { subscribers.old.items ≡ subscribers.new.items ++ result ∷ [] }
{
    match subscribers.pop() {
        Some(subscriber) => subscriber,
        None => unreachable!(),
    }
}
