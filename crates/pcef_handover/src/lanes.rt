//! Rows that continue a worker's lane.

ghost use Rattle.std.specs.Prelude.{◌≡◌, ◌+◌, ◌<◌, ◌^◌, length};
ghost use Rattle.pcef_model.specs.Entries.{lane};
ghost use Rattle.pcef_model.specs.Journals.{lane_len};
ghost use Rattle.pcef_model.specs.Lawful.{newest_generation};
ghost use Rattle.pcef_handover.specs.Lanes.{continues, is_next};

use pcef_journal::LaneEnd;
use pcef_journaled::JournaledState;
use pcef_model::Row;
use pcef_session::Item;

/// Where the lane of a worker ends. A worker that was never attached has no rows.
pub fn end_of(session: &JournaledState, worker: u8) -> LaneEnd
    ensures rows { result.rows ≡ lane_len session.now.session.journal worker }
    ensures generation { result.newest_generation
        ≡ newest_generation (lane session.now.session.journal worker) }
{
    match session.session().lane_end(worker) {
        Some(end) => end,
        None => LaneEnd {
            rows: 0,
            newest_generation: 0,
            attached: false,
        },
    }
}

/// Whether a row may come next in a lane of `rows` rows, the newest of them by `generation`.
fn is_next(row: &Row, worker: u8, rows: u64, generation: u32) -> bool
    ensures { result ≡ is_next worker rows generation row.now }
{
    row.worker == worker && row.seq == rows && generation <= row.generation
}

/// Whether rows may come next, one after the other.
pub fn continues(items: &[Item], worker: u8, end: LaneEnd) -> bool
    requires { end.rows + length items.now < 2 ^ 64 }
    ensures { result ≡ continues worker end.rows end.newest_generation items.now }
{
    let mut rows = end.rows;
    let mut generation = end.newest_generation;
    for item in items {
        if !is_next(&item.row, worker, rows, generation) {
            return false;
        }
        rows += 1;
        generation = item.row.generation;
    }
    true
}
