//! Laws of journals, proved for whoever reads the definitions.

ghost use Rattle.pcef_core.specs.Reporting.{GrantsAreReported, KeysGoOffWithAReport, LostRulesAreReportedInOrder, ReportsHaveAllOctets, TerminateReportsAll};
ghost use Rattle.pcef_core.specs.Bearing.{NewBearersTakeTheLeastId};
ghost use Rattle.pcef_core.specs.Deciding.{OneDecidesWhereSomeFit};
ghost use Rattle.pcef_core.specs.Places.{SlotsStayInPlace};

/// Reports (TS 29.212, clauses 4.5.16 and 4.5.17). While usage reports are subscribed, each key that is on has fewer
/// unreported octets than its grant between two events. A key goes off only with a report of it. Right after a usage
/// report of a key, all that was counted for it is reported. After a Terminate nothing is unreported any more, whatever
/// follows. The rules of a lost bearer are reported in the order of their names (TS 29.212, clause 5.3.18).
pub fn reports_say_what_is_due()
    ensures grants { GrantsAreReported }
    ensures off { KeysGoOffWithAReport }
    ensures all { ReportsHaveAllOctets }
    ensures order { LostRulesAreReportedInOrder }
    ensures end { TerminateReportsAll }
{}

/// Slots: a command leaves those that there are in their places, and puts new ones behind them.
pub fn slots_stay_in_their_places()
    ensures { SlotsStayInPlace }
{}

/// Decisions (TS 23.203, clause 6.2.2): of the active rules that fit a packet one decides, and none does where none
/// fits.
pub fn one_rule_decides()
    ensures { OneDecidesWhereSomeFit }
{}

/// Bearers: the id that a new one gets is the least from 6 to 15 that no rule keeps.
pub fn new_bearers_take_the_least_id()
    ensures { NewBearersTakeTheLeastId }
{}
