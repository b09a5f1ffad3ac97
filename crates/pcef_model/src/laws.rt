//! Laws of the definitions, proved for whoever reads them.

ghost use Rattle.pcef_model.specs.Laws.{CommandsAreWithinTheProfile, EarlierGenerationsStay, IdsAreDistinct, IdsAreInRange, KeysAreFew, NothingFollowsTheEnd, NothingIsLost, NothingIsReportedTwice, NothingIsUnreportedAtTheEnd, LanesAreNumbered, LevelsStay, RatesAreWithinCapacity, RatesStayInTheRoom, ReportsLeaveGenerations, RowsAreWithinTheProfile, RowsCountByTheirOwnGeneration, RowsHaveTheirVerdicts, RowsLeaveGenerations, SessionKeysHaveNoRule, SlotsStay, TableCommandsMakeTheNext, WaitingRowsStay, WaitingRowsStayBesideOthers};

/// How journals grow: earlier generations stay, and each row counts by its own.
pub fn journals_grow()
    ensures earlier { EarlierGenerationsStay }
    ensures next { TableCommandsMakeTheNext }
    ensures rows { RowsLeaveGenerations }
    ensures reports { ReportsLeaveGenerations }
    ensures counted { RowsCountByTheirOwnGeneration }
{}

/// Usage reports are exact: each counted octet is reported once at most, and none is lost.
pub fn usage_is_exact()
    ensures twice { NothingIsReportedTwice }
    ensures lost { NothingIsLost }
{}

/// The ids of bearers: 5 to 15, and no two bearers have the same. The guaranteed rates of all rules are within
/// the capacity, and stay within the room that a pool leaves.
pub fn bearers_have_their_own_ids()
    ensures distinct { IdsAreDistinct }
    ensures in_range { IdsAreInRange }
    ensures capacity { RatesAreWithinCapacity }
    ensures room { RatesStayInTheRoom }
{}

/// Rows that wait lose nothing while they do: they may still come next, and count for the same keys.
pub fn waiting_rows_stay()
    ensures commands { WaitingRowsStay }
    ensures others { WaitingRowsStayBesideOthers }
    ensures slots { SlotsStay }
{}

/// Keys: at most eight have a slot; their levels stay, and no active rule has a key of session level.
pub fn levels_stay()
    ensures few { KeysAreFew }
    ensures stay { LevelsStay }
    ensures rules { SessionKeysHaveNoRule }
{}

/// Rows: each has the verdict of its own generation, those of a worker are numbered from 0 on and never go back in
/// generations, and there are no more than the profile allows.
pub fn rows_are_lawful()
    ensures verdicts { RowsHaveTheirVerdicts }
    ensures lanes { LanesAreNumbered }
    ensures within { RowsAreWithinTheProfile }
{}

/// Commands: there are no more than the profile allows, Close and Terminate apart.
pub fn commands_are_lawful()
    ensures within { CommandsAreWithinTheProfile }
{}

/// The end of a session: a Terminate leaves nothing unreported, and nothing is accepted after it.
pub fn sessions_end_whole()
    ensures reported { NothingIsUnreportedAtTheEnd }
    ensures over { NothingFollowsTheEnd }
{}
