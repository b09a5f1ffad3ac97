//! Laws of the CCRs of a session.

ghost use Rattle.pcef_gx_dialogue.specs.Adding.{AnsweredIsTold, NextGoesOn, NothingAtFirst, OctetsAddUp, ToldGoesOn, UntoldIsNext};

/// The CC-Total-Octets of a key in the CCRs that were answered with success add up to the octets that the session
/// reported of it, where all reports are told: at first none is; a CCR tells what is next; it has told it once it was
/// answered; and nothing of this changes while the session goes on.
pub fn ccrs_add_up()
    ensures first { NothingAtFirst }
    ensures next { UntoldIsNext }
    ensures told_goes_on { ToldGoesOn }
    ensures next_goes_on { NextGoesOn }
    ensures answered { AnsweredIsTold }
    ensures octets { OctetsAddUp }
{}
