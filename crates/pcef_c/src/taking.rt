//! Packets that a worker takes, as C passes them, and their verdicts as C gets them.

ghost use Rattle.std.specs.Prelude.{◌≡◌};
ghost use Rattle.pcef_c.specs.Taking.{HasRowFor, IsPacketTaken, IsVerdictOf, TakesAll, ends_taking, take_number, taken_verdict};

use crate::judging::{CPacket, CVerdict, bearer_of, dir_of, place_of, status_of, unjudged};
use crate::numbers::packet_number;
use pcef_handle::{TakeRefusal, WorkerHandle};
use pcef_session::Item;
use pcef_world::{Outcome, flags_of};

/// The verdict that a row has, with the place of the rule that decided.
fn taken_verdict(item: &Item, place: Option<u8>) -> CVerdict
    ensures { result ≡ taken_verdict item.now place }
{
    let outcome = Outcome::of(&item.row.verdict);
    CVerdict {
        generation: item.row.generation,
        status: status_of(outcome),
        bearer: bearer_of(outcome),
        place: place_of(place),
        slots: flags_of(&item.slots),
    }
}

/// The status of a packet that isn't taken.
fn take_number(refusal: TakeRefusal) -> u8
    ensures { result ≡ take_number refusal }
{
    match refusal {
        TakeRefusal::NoPacket(fault) => packet_number(fault),
        TakeRefusal::TooFew => 10,
        TakeRefusal::NoWorker => 11,
        TakeRefusal::Full => 12,
        TakeRefusal::NoMemory => 13,
    }
}

/// The verdict that the row has which waits last.
fn last_verdict(worker: &WorkerHandle, place: Option<u8>) -> CVerdict
    requires { HasRowFor worker.now place }
    ensures { IsVerdictOf worker.now place result }
{
    let Some(attached) = &worker.worker else {
        return unjudged(11);
    };
    match attached.last() {
        Some(item) => taken_verdict(item, place),
        None => unjudged(11),
    }
}

/// Takes a packet.
fn take_one(worker: &mut WorkerHandle, packet: &CPacket<'_>) -> CVerdict
    ensures { IsPacketTaken worker.old packet.now result worker.new }
{
    match worker.take(dir_of(packet.up), packet.octets, packet.whole) {
        Ok(place) => last_verdict(worker, place),
        Err(refusal) => unjudged(take_number(refusal)),
    }
}

/// Whether no further packet can be taken for now.
fn ends_taking(verdict: CVerdict) -> bool
    ensures { result ≡ ends_taking verdict }
{
    verdict.status > 10
}

/// Takes packets in their order, as many as there are verdicts, until one can't be taken for now. Its verdict says why,
/// and the number of those before it is returned.
pub(crate) fn take_all(
    packets: &[CPacket<'_>],
    verdicts: &mut [CVerdict],
    worker: &mut WorkerHandle,
) -> usize
    ensures { TakesAll packets.now verdicts.old worker.old result verdicts.new worker.new }
{
    let count = packets.len().min(verdicts.len());
    for place in 0..count {
        let verdict = take_one(worker, &packets[place]);
        verdicts[place] = verdict;
        if ends_taking(verdict) {
            return place;
        }
    }
    count
}
