//! Event triggers.

use pcef_rule::Name;

/// The kinds of access events (TS 29.212, clause 5.3.7, Event-Trigger).
#[derive(Clone, Copy, Debug, PartialEq, Eq)]
pub enum AccessKind {
    /// `RAT_CHANGE`: the radio access technology changed.
    RatChange,
    /// `PLMN_CHANGE`: the network changed.
    PlmnChange,
    /// `USER_LOCATION_CHANGE`: the location of the user changed.
    UserLocationChange,
    /// `UE_TIME_ZONE_CHANGE`: the time zone of the user equipment changed.
    UeTimeZoneChange,
}

/// The event triggers that are subscribed (TS 29.212, clause 5.3.7, Event-Trigger).
#[derive(Clone, Copy, Debug, Default, PartialEq, Eq)]
pub struct TriggerSet {
    /// `USAGE_REPORT`.
    pub usage_report: bool,
    /// `RAT_CHANGE`.
    pub rat_change: bool,
    /// `PLMN_CHANGE`.
    pub plmn_change: bool,
    /// `USER_LOCATION_CHANGE`.
    pub user_location_change: bool,
    /// `UE_TIME_ZONE_CHANGE`.
    pub ue_time_zone_change: bool,
}

/// Marks the value of a notice.
#[derive(Clone, Copy, Debug, PartialEq, Eq)]
pub struct OfNotice;

/// The value that a notice gives for an access event, in the form of a name.
pub type NoticeValue = Name<OfNotice>;
