//! Laws of the definitions, proved for whoever reads them.

ghost use Rattle.pcef_gx_peer.specs.Laws.{AvpsArePadded, CutIsMore, LostStays, WholeStays, WrittenIsWhole};

/// What a stream begins with doesn't change when more octets come, once it can be told; and not before all octets of a
/// message came is it told to be whole.
pub fn a_front_stays()
    ensures whole { WholeStays }
    ensures lost { LostStays }
    ensures cut { CutIsMore }
{}

/// A message that is written is found whole in a stream.
pub fn what_is_written_is_whole()
    ensures message { WrittenIsWhole }
    ensures avps { AvpsArePadded }
{}
