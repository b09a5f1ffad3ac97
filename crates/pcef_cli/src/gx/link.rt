//! The connection with the PCRF: which messages come, and what each is for.

ghost use Rattle.std.specs.Prelude.{◌≡◌, ◌<◌, ◌≤◌, ◌^◌, IfOk, length, true};

use crate::gx::end::Stop;
use crate::gx::members::{Members, Note, put};
use pcef_diameter::{HEADER_LEN, MessageHeader, read_avps, read_message_header};
use pcef_gx::code::SESSION_ID;
use pcef_gx::is;
use pcef_gx_dialogue::{Party, Responder};
use pcef_gx_messages::{Identity, MAX_OCTETS};
use pcef_gx_node::{Deed, Numbering, Phase, deed_of, disconnect_request, is_disconnect_answer};
use pcef_gx_peer::{
    Exchange, Front, MAX_LEN, Node, ProtocolError, capabilities_request, error_answer, front_of,
    kind_of, read_capabilities_answer, success_answer,
};
use pcef_packet::Addr;
use std::alloc::{AllocError, Global};
use std::io::Write;

/// What is kept of a connection.
#[derive(Drop)]
pub(crate) struct Link<'a, W: Write + Drop> {
    alloc: Global,
    node: Node<'a>,
    phase: Phase,
    numbering: Numbering,
    members: Members,
    writer: W,
    /// What came of a message that isn't whole yet.
    front: Vec<u8>,
}

/// The Session-Id of a message: the first one that is read, or none of its octets.
fn session_id_of(alloc: Global, message: &[u8]) -> Result<Vec<u8>, AllocError>
    requires { 20 ≤ length message.now }
{
    let read = read_avps(alloc, message.split_at(HEADER_LEN).1)?;
    for avp in &read.avps {
        if is(avp, SESSION_ID) {
            return Vec::from_slice(alloc, avp.octets);
        }
    }
    Ok(Vec::new(alloc))
}

/// The answer to a RAR of a session that there isn't, which has this Session-Id.
fn stray_answer(
    alloc: Global,
    node: &Node,
    header: &MessageHeader,
    message: &[u8],
    session_id: &[u8],
) -> Result<Vec<u8>, AllocError>
    requires request { header.now.request ≡ true }
    requires command { header.now.command < 2 ^ 24 }
    requires whole { 20 ≤ length message.now }
{
    let short = session_id.split_at(session_id.len().min(MAX_OCTETS)).0;
    let (host, realm) = (node.origin_host(), node.origin_realm());
    let Some(identity) = Identity::new(short, host, realm, &[]) else {
        return Err(AllocError);
    };
    let mut responder = Responder::new(Party::new(alloc, &identity)?);
    responder.unknown(alloc, header, message)?;
    Vec::from_slice(alloc, responder.reply().unwrap_or(&[]))
}

impl<'a, W: Write + Drop> Link<'a, W> {
    /// A connection on which nothing was said yet. Takes no memory.
    pub(crate) fn new(
        alloc: Global,
        node: Node<'a>,
        numbering: Numbering,
        members: Members,
        writer: W,
    ) -> Link<'a, W> {
        Link {
            alloc,
            node,
            phase: Phase::Exchanging,
            numbering,
            members,
            writer,
            front: Vec::new(alloc),
        }
    }

    /// The sessions.
    pub(crate) fn members(&self) -> &Members {
        &self.members
    }

    /// What is to be said of a session next, if anything.
    pub(crate) fn take_note(&mut self) -> Option<Note> {
        self.members.take_note()
    }

    /// Says what this node can.
    pub(crate) fn begin(&mut self, address: Addr) -> Result<(), Stop> {
        let identifiers = self.numbering.identifiers();
        match capabilities_request(self.alloc, &self.node, address, identifiers) {
            Ok(message) => put(&mut self.writer, &message),
            Err(_) => Err(Stop::NoMemory),
        }
    }

    /// Takes leave once all sessions have ended.
    fn leave(&mut self) -> Result<(), Stop> {
        if self.phase != Phase::Speaking || !self.members.are_over() {
            return Ok(());
        }
        let identifiers = self.numbering.identifiers();
        let Ok(message) = disconnect_request(self.alloc, &self.node, identifiers) else {
            return Err(Stop::NoMemory);
        };
        self.phase = Phase::Leaving;
        put(&mut self.writer, &message)
    }

    /// Reads the CEA, and opens the sessions where the peers may speak.
    fn read_capabilities(&mut self, message: &[u8]) -> Result<(), Stop>
        requires { 20 ≤ length message.now }
    {
        match read_capabilities_answer(self.alloc, message.split_at(HEADER_LEN).1) {
            Ok(Exchange::Agreed) => {
                self.phase = Phase::Speaking;
                self.members
                    .open_more(&mut self.numbering, &mut self.writer)
            }
            Ok(Exchange::Refused(code)) => Err(Stop::Refused(code)),
            Err(_) => Err(Stop::NoMemory),
        }
    }

    /// Answers a DWR or a DPR.
    fn answer(&mut self, header: &MessageHeader) -> Result<(), Stop>
        requires { header.now.command < 2 ^ 24 }
    {
        match success_answer(self.alloc, &self.node, header) {
            Ok(message) => put(&mut self.writer, &message),
            Err(_) => Err(Stop::NoMemory),
        }
    }

    /// Refuses a request.
    fn refuse(
        &mut self,
        header: &MessageHeader,
        error: ProtocolError,
        message: &[u8],
    ) -> Result<(), Stop>
        requires command { header.now.command < 2 ^ 24 }
        requires whole { 20 ≤ length message.now }
        requires most { length message.now ≤ 65536 }
    {
        let behind = message.split_at(HEADER_LEN).1;
        match error_answer(self.alloc, &self.node, header, error, behind) {
            Ok(answer) => put(&mut self.writer, &answer),
            Err(_) => Err(Stop::NoMemory),
        }
    }

    /// Refuses a RAR of a session that there isn't.
    fn refuse_stray(
        &mut self,
        header: &MessageHeader,
        message: &[u8],
        session_id: &[u8],
    ) -> Result<(), Stop>
        requires request { header.now.request ≡ true }
        requires command { header.now.command < 2 ^ 24 }
        requires whole { 20 ≤ length message.now }
    {
        match stray_answer(self.alloc, &self.node, header, message, session_id) {
            Ok(answer) => put(&mut self.writer, &answer),
            Err(_) => Err(Stop::NoMemory),
        }
    }

    /// The place of the session that a message is for. Where a node on the way answers a request, the Session-Id may be
    /// missing; a request without one is refused by the first session.
    fn place_of(&self, header: &MessageHeader, message: &[u8], session_id: &[u8]) -> Option<usize> {
        if !session_id.is_empty() {
            return self.members.place_of(session_id);
        }
        if header.request {
            return Some(0);
        }
        self.members.place_out(message.get(12..20)?)
    }

    /// Hands a message to its session.
    fn hear(&mut self, header: &MessageHeader, message: &[u8]) -> Result<(), Stop>
        requires command { header.now.command < 2 ^ 24 }
        requires whole { 20 ≤ length message.now }
    {
        let Ok(named) = session_id_of(self.alloc, message) else {
            return Err(Stop::NoMemory);
        };
        match self.place_of(header, message, &named) {
            Some(place) => {
                let alloc = self.alloc;
                let writer = &mut self.writer;
                self.members
                    .hear(alloc, place, message, &mut self.numbering, writer)
            }
            None if header.request => self.refuse_stray(header, message, &named),
            None => Ok(()),
        }
    }

    /// Does a line of a session, and sends the CCR that is due; the answer where it is at fault.
    pub(crate) fn take_line(&mut self, place: usize, line: &[u8]) -> Result<Option<Vec<u8>>, Stop> {
        let alloc = self.alloc;
        let writer = &mut self.writer;
        self.members
            .take_line(alloc, place, line, &mut self.numbering, writer)
    }

    /// Does what is due for a message.
    fn take_message(&mut self, header: &MessageHeader, message: &[u8]) -> Result<(), Stop>
        requires command { header.now.command < 2 ^ 24 }
        requires whole { 20 ≤ length message.now }
        requires most { length message.now ≤ 65536 }
    {
        match deed_of(self.phase, kind_of(header), is_disconnect_answer(header)) {
            Deed::ReadCapabilities => self.read_capabilities(message),
            Deed::AnswerWatchdog => {
                self.answer(header)?;
                self.members.tell_all(&mut self.numbering, &mut self.writer)
            }
            Deed::AnswerDisconnect => {
                self.answer(header)?;
                Err(Stop::Disconnected)
            }
            Deed::Refuse(error) => self.refuse(header, error, message),
            Deed::Hear => self.hear(header, message),
            Deed::Drop => Ok(()),
            Deed::Close => Err(Stop::Early),
            Deed::Leave => Err(Stop::Left),
        }
    }

    /// Takes the first message of some octets, if it is whole, and returns how many octets it has: 0 where more have to
    /// come.
    fn take_first(&mut self, octets: &[u8]) -> Result<usize, Stop>
        ensures { IfOk result (λ len. len ≤ length octets.now) }
    {
        match front_of(octets) {
            Front::Whole(len) => {
                let message = octets.split_at(len).0;
                if let Some(header) = read_message_header(message) {
                    self.take_message(&header, message)?;
                    self.leave()?;
                }
                Ok(len)
            }
            Front::More => Ok(0),
            Front::Lost => Err(Stop::Lost),
        }
    }

    /// Takes octets that came: each message that is whole, one after the other.
    pub(crate) fn take(&mut self, octets: &[u8]) -> Result<(), Stop> {
        let mut came = Vec::new(self.alloc);
        std::mem::swap(&mut came, &mut self.front);
        if came.extend_from_slice(octets).is_err() {
            return Err(Stop::NoMemory);
        }
        let mut rest = came.as_slice();
        for _ in 0..came.len() {
            let len = self.take_first(rest)?;
            if len == 0 {
                break;
            }
            rest = rest.split_at(len).1;
        }
        match self.front.extend_from_slice(rest) {
            Ok(()) => Ok(()),
            Err(_) => Err(Stop::NoMemory),
        }
    }
}
