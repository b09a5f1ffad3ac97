//! Laws of what sessions keep beside their journals, proved for whoever reads them.

ghost use Rattle.pcef_session.specs.Laws.{RatesAreSums, RulesStandOnTheirBearers, ShownTablesCount, ShownTablesJudge, ShownTablesStay};

/// A table that shows a generation of the journal judges and counts as the definitions do, and goes on
/// showing it as commands come.
pub fn shown_tables_judge()
    ensures verdicts { ShownTablesJudge }
    ensures counts { ShownTablesCount }
    ensures stay { ShownTablesStay }
{}

/// The bearers of a session, as [`crate::SessionState::bearers`] has them: each active rule stands on the one of its
/// QCI and ARP, and each bearer's guaranteed rates are the exact sums of its rules' (TS 23.203, clause 6.1.1.4).
pub fn rules_have_their_bearers()
    ensures bearers { RulesStandOnTheirBearers }
    ensures sums { RatesAreSums }
{}
