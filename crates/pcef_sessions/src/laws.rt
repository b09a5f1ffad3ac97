//! What follows from the definitions.

ghost use Rattle.pcef_sessions.specs.Between.{LinesChangeNothing, OpenSessionsAreScripts, RenewedSessionsAreScripts, WholeSessionsAreScripts};
ghost use Rattle.pcef_sessions.specs.Served.{NamesAreToldApart};

/// The answers under a name between its `open` and its `end` are those of a script of these lines on a session of its
/// own. Where a line renews the session, they are that from the `open` to this line, and from there on those of a script on
/// the session that stands in its place. A line that shows its lines changes nothing.
pub fn sessions_are_scripts()
    ensures opened { OpenSessionsAreScripts }
    ensures renewed { RenewedSessionsAreScripts }
    ensures lines { LinesChangeNothing }
    ensures whole { WholeSessionsAreScripts }
{}

/// What stands before the space of an answer is its session's name, or a dash, which is no session's name. So whoever
/// reads the answers can tell whose they are.
pub fn names_are_told_apart()
    ensures { NamesAreToldApart }
{}
