//! Laws of what CCRs tell.

ghost use Rattle.pcef_gx_updates.specs.Laws.{TellingGoesOn, ToldStays, UsageAddsUp};

/// When CCRs have told all reports of a session, one after the other, their octets of a key add up to those that the
/// session reported. A CCR goes on where the last one ended, and what was told stays as it was.
pub fn usage_adds_up()
    ensures usage { UsageAddsUp }
    ensures next { TellingGoesOn }
    ensures stays { ToldStays }
{}
