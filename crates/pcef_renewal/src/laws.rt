//! Laws of renewals, proved for whoever reads the definitions.

ghost use Rattle.pcef_renewal.specs.Accepting.{RenewalsAreTaken};
ghost use Rattle.pcef_renewal.specs.Alike.{AlikeSessionsCountAlike, AlikeSessionsDecideAlike, BearersAreCalled, CommandsAreRefusedAlike, CommandsKeepAlike, NewSessionsAreAlike, PlacesRenumber, RowsKeepAlike, WorkersKeepAlike};
ghost use Rattle.pcef_renewal.specs.Counting.{CommandsReachAlike, NewSessionsAreEven, NewSessionsReachAlike, PacketsReachAlike};
ghost use Rattle.pcef_renewal.specs.GoingOn.{SessionsGoOnAlike};
ghost use Rattle.pcef_renewal.specs.Likeness.{OctetsAddUp, RenewalsAreLike, RenewalsNeedWhatTheySay};
ghost use Rattle.pcef_renewal.specs.Maps.{BearersAreRenumbered, CountsBeginAnew, RenewalsComeAgain, SlotsAreRenumbered};
ghost use Rattle.pcef_renewal.specs.Reporting.{CommandsReportAlike, PacketsReportAlike};
ghost use Rattle.pcef_renewal.specs.Reaching.{OutOfReachIsNotReached};

/// A new session with the same profile and catalog takes the whole renewal of an old one, command by command, without a
/// report.
pub fn renewals_are_taken()
    ensures { RenewalsAreTaken }
{}

/// A new session that took the renewal of an old one is like it: the same rules are active, the same keys on, with the
/// same levels, and the same events subscribed; both are closed or neither; each key reaches its grant with the same
/// octets, as far as some come; and the same pairs of QCI and ARP have bearers, with the same rates. The numbers of bearers
/// may be others. The keys that have no slot any more are off, and no active rule has them.
pub fn new_sessions_are_like_old_ones()
    ensures like { RenewalsAreLike }
    ensures need { RenewalsNeedWhatTheySay }
{}

/// In sessions that are alike each packet is decided by the same rule, or by none, and counts for the same keys. However
/// often there was a renewal, the octets that were counted for a key are those that all its sessions reported, and what the
/// last one hasn't reported yet.
pub fn like_sessions_judge_alike()
    ensures decide { AlikeSessionsDecideAlike }
    ensures count { AlikeSessionsCountAlike }
    ensures octets { OctetsAddUp }
{}

/// A key with the grant [`crate::OUT_OF_REACH`] makes no Threshold report, however many packets a session takes.
pub fn out_of_reach_is_not_reached()
    ensures { OutOfReachIsNotReached }
{}

/// In the new session bearers and slots get the numbers of their places, and generations, reports, rows and workers are
/// counted anew. Its own renewal is the same list.
pub fn renewals_number_anew()
    ensures bearers { BearersAreRenumbered }
    ensures slots { SlotsAreRenumbered }
    ensures counts { CountsBeginAnew }
    ensures again { RenewalsComeAgain }
{}

/// A new session that is like the old one stays alike, octets and grants aside, whatever both accept: each command, of which
/// the loss of a bearer names it by its new number, rows, and workers that come and leave. They refuse the same commands, but
/// for a key that the new one has forgotten, and where only one of them is full.
pub fn alike_sessions_stay_alike()
    ensures begin { NewSessionsAreAlike }
    ensures bearers { PlacesRenumber }
    ensures called { BearersAreCalled }
    ensures commands { CommandsKeepAlike }
    ensures refused { CommandsAreRefusedAlike }
    ensures rows { RowsKeepAlike }
    ensures workers { WorkersKeepAlike }
{}

/// Rows of the same packets reach the same grants in a session and in the new one, as far as none was reached at the
/// renewal: each threshold is that of one session. Commands that both accept leave it so; of a Monitor or a report of a key
/// it is said where both count the key evenly, as at a renewal where the old session has no octets of it unreported. Rows and
/// commands report the same in both, octets and the order in one answer aside; a Terminate may report more keys in one.
pub fn alike_sessions_reach_alike()
    ensures begin { NewSessionsReachAlike }
    ensures even { NewSessionsAreEven }
    ensures packets { PacketsReachAlike }
    ensures commands { CommandsReachAlike }
    ensures packet_reports { PacketsReportAlike }
    ensures command_reports { CommandsReportAlike }
{}

/// Whatever a session and the new one that goes on for it both accept from the renewal on, they stay alike: so each packet is
/// decided by the same rule and counts for the same keys, the same commands are refused, and the same grants are reached.
pub fn sessions_go_on_alike()
    ensures { SessionsGoOnAlike }
{}
