//! Does what an answer of the PCRF grants.

ghost use Rattle.std.specs.Prelude.{◌≡◌, ◌≤◌, None, Some, is_some, length, unwrap_or};
ghost use Rattle.pcef_gx.specs.Messages as messages;
ghost use Rattle.pcef_world.specs.Worlds.{IsOpenedWorld};
ghost use Rattle.pcef_gx_handle.specs.Dialogues.{place_of, with_qos};
ghost use Rattle.pcef_gx_handle.specs.Hearing.{Grants, GrantsAt, GrantsIn, HearsAnswer, OpensSession, OpensWhere, granted_profile, granted_setting};

use crate::beside::watches;
use crate::hearing::{HearRefusal, Heard};
use crate::held::{Dialogue, Stage};
use pcef_diameter::MessageHeader;
use pcef_gx::Orders;
use pcef_gx_dialogue::{CcaDrop, Says, apart, do_grant, read_answer, with_stops};
use pcef_handle::{Handle, OpenSession};
use pcef_model::Profile;
use pcef_rule::Qos;
use pcef_session::open_fault;
use std::alloc::Global;

/// The profile of a session with the QoS that the PCRF grants, where it says one.
fn granted_profile(asked: Option<Qos>, profile: &Profile) -> Profile
    ensures { result ≡ with_qos (unwrap_or asked profile.now.default_qos) profile.now }
{
    Profile {
        ue: profile.ue,
        default_qos: asked.unwrap_or(profile.default_qos),
        capacity: profile.capacity,
        qcis: profile.qcis,
        rows: profile.rows,
        commands: profile.commands,
    }
}

impl Dialogue {
    /// Does the orders of the first answer on the session that it opens.
    fn grant_first(
        &mut self,
        alloc: Global,
        handle: &mut Handle,
        opened: OpenSession,
        asked: Orders,
    ) -> Result<Heard, HearRefusal>
        requires none { handle.old.session ≡ None }
        requires world { IsOpenedWorld (granted_setting (messages.asked asked) self.old) opened.world }
        requires number { opened.number ≡ handle.old.next_number }
        ensures { OpensSession (messages.asked asked.entry) self.old handle.old result self.new handle.new }
    {
        let mut session = opened;
        let lent = &mut session;
        let (orders, left) = apart(asked);
        let Ok(grant) = do_grant(alloc, &lent.catalog, &mut lent.world, orders, &mut self.due)
        else {
            return Err(HearRefusal::NoMemory);
        };
        self.settle(true);
        self.profile = granted_profile(left.default_qos, &self.profile);
        self.session = Some(session.number);
        self.watches_loss = watches(&left.others, self.watches_loss);
        handle.next_number = handle.next_number.wrapping_add(1);
        handle.session = Some(session);
        Ok(Heard::Told(grant, left))
    }

    /// Opens the session as the first answer grants it.
    fn open_session(
        &mut self,
        alloc: Global,
        handle: &mut Handle,
        asked: Orders,
    ) -> Result<Heard, HearRefusal>
        requires none { handle.old.session ≡ None }
        ensures { OpensSession (messages.asked asked.entry) self.old handle.old result self.new handle.new }
    {
        let profile = granted_profile(asked.default_qos, &self.profile);
        if let Some(fault) = open_fault(&profile) {
            self.settle(true);
            self.stage = Stage::Ending;
            return Ok(Heard::NotOpened(fault));
        }
        match OpenSession::open(alloc, handle.next_number, profile) {
            Ok(session) => self.grant_first(alloc, handle, session, asked),
            Err(_) => Err(HearRefusal::NoMemory),
        }
    }

    /// Opens the session, where the handle has none.
    fn open_at(
        &mut self,
        alloc: Global,
        handle: &mut Handle,
        asked: Orders,
    ) -> Result<Heard, HearRefusal>
        ensures { OpensWhere (is_some handle.old.session) (messages.asked asked.entry) self.old handle.old result self.new handle.new }
    {
        if handle.session.is_some() {
            return Err(HearRefusal::AlreadyOpen);
        }
        self.open_session(alloc, handle, asked)
    }

    /// Does the orders of an answer on the session.
    fn grant_in(
        &mut self,
        alloc: Global,
        session: &mut OpenSession,
        asked: Orders,
    ) -> Result<Heard, HearRefusal>
        ensures { GrantsIn (messages.asked asked.entry) self.old session.old result self.new (Some session.new) }
    {
        let (orders, left) = apart(asked);
        let told = self.ccrs.past();
        let Ok(orders) = with_stops(alloc, session.world.session(), told, orders) else {
            return Err(HearRefusal::NoMemory);
        };
        let len = self.due.len();
        let Ok(()) = self.tell_kept(alloc, left.default_qos) else {
            return Err(HearRefusal::NoMemory);
        };
        let Ok(grant) = do_grant(
            alloc,
            &session.catalog,
            &mut session.world,
            orders,
            &mut self.due,
        ) else {
            self.due.truncate(len);
            return Err(HearRefusal::NoMemory);
        };
        self.settle(true);
        self.watches_loss = watches(&left.others, self.watches_loss);
        Ok(Heard::Told(grant, left))
    }

    /// Does the orders of an answer, where the session is there.
    fn grant_at(
        &mut self,
        alloc: Global,
        session: &mut Option<OpenSession>,
        asked: Orders,
    ) -> Result<Heard, HearRefusal>
        ensures { GrantsAt (place_of self.old.session session.old) (messages.asked asked.entry) self.old session.old result self.new session.new }
    {
        match (self.session, session) {
            (Some(number), Some(session)) if session.number == number => {
                self.grant_in(alloc, session, asked)
            }
            _ => Err(HearRefusal::OtherSession),
        }
    }

    /// Does what a successful answer grants.
    fn grant(
        &mut self,
        alloc: Global,
        handle: &mut Handle,
        asked: Orders,
    ) -> Result<Heard, HearRefusal>
        ensures { Grants self.old.stage (messages.asked asked.entry) self.old handle.old result self.new handle.new }
    {
        match self.stage {
            Stage::Opening => self.open_at(alloc, handle, asked),
            Stage::Open => self.grant_at(alloc, &mut handle.session, asked),
            Stage::Ending | Stage::Over => {
                self.settle(true);
                Ok(Heard::Ended)
            }
        }
    }

    /// Hears the answer to the CCR that is out.
    pub(crate) fn hear_answer(
        &mut self,
        alloc: Global,
        handle: &mut Handle,
        header: &MessageHeader,
        message: &[u8],
    ) -> Result<Heard, HearRefusal>
        requires { 20 ≤ length message.now }
        ensures { HearsAnswer header.now message.now self.old handle.old result self.new handle.new }
    {
        let identity = self.responder.party().identity();
        match read_answer(alloc, &identity, &self.ccrs, header, message) {
            Ok(Says::Granted(asked)) => self.grant(alloc, handle, asked),
            Ok(Says::Failed(code)) => {
                self.settle(false);
                Ok(Heard::Failed(code))
            }
            Err(CcaDrop::NotOurs) => Err(HearRefusal::NotOurs),
            Err(CcaDrop::Fault(fault)) => Err(HearRefusal::AtFault(fault.problem)),
            Err(CcaDrop::NoMemory) => Err(HearRefusal::NoMemory),
        }
    }
}
