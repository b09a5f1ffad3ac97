//! The sessions that are open, by their names.

ghost use Rattle.std.specs.Prelude.{◌≡◌, ◌≢◌, ◌≤◌, ℕ, List, codes, length, option_map, IfErr, IfOk, None, OnErr, OnOk, Some, false};
ghost use Rattle.std.specs.Arc.{arc_value};
ghost use Rattle.hex.specs.Hex.{encode_lower};
ghost use Rattle.pcef_line.specs.Canonical.{step_text, take_text};
ghost use Rattle.pcef_model.specs.ProfileModel.{setting_of};
ghost use Rattle.pcef_script.specs.Running.{OpenFails};
ghost use Rattle.pcef_script.specs.ScriptLines.{is_blank_line};
ghost use Rattle.pcef_script.specs.Scripts.{Opened};
ghost use Rattle.pcef_world.specs.Worlds.{IsOpenedWorld};
ghost use Rattle.pcef_sessions.specs.Asked.{asked_of};
ghost use Rattle.pcef_sessions.specs.FrameSayings.{AnswersFrame, LacksForFrame, malformed};
ghost use Rattle.pcef_sessions.specs.Sayings.{AnswersNamedLine, LacksForNamedLine, said_of};
ghost use Rattle.pcef_sessions.specs.declared.asking.Asking.TheVariants as asking;
ghost use Rattle.pcef_sessions.specs.Standing.{Becomes, fixed, held};
ghost use Rattle.pcef_sessions.specs.Under.{opened, with_address};
ghost use Rattle.pcef_sessions.specs.private.FrameLines.{IsRight, line_of};
ghost use Rattle.pcef_sessions.specs.private.Steps.{AllStay, AnswersIn, AnswersRead, Asks, AsksInstead, AsksOf, LacksAsked, LacksIn, LacksRead, OthersStay, RunLacks, RunReadLacks, Runs, RunsRead};

use crate::asking::{Asking, asked_of};
use crate::frame::{Frame, read_frame};
use crate::frame_fault::FrameFault;
use crate::held::Held;
use crate::name::{SessionName, split_name};
use crate::saying::{NamedAnswer, says, says_fault, says_malformed};
use pcef_built_in::ShapedCatalog;
use pcef_catalog::Offers;
use pcef_index::IndexShelf;
use pcef_line::{Line, LineFault, LineReader, flush_line, take_line};
use pcef_model::{OpenFault, Profile};
use pcef_packet::{Addr, Dir};
use pcef_script::{LineAnswer, ScriptFault};
use pcef_world::WorldState;
use std::alloc::{AllocError, Global};
use std::collections::HashMap;
use std::hash::RandomState;
use std::sync::Arc;

/// Sessions of one profile, each under its name, with the predefined rules that all of them are offered. Sessions whose
/// rules are equal share an index.
pub struct Sessions {
    alloc: Global,
    profile: Profile,
    catalog: Arc<ShapedCatalog>,
    lines: LineReader,
    shelf: IndexShelf,
    table: HashMap<SessionName, Box<Held>, RandomState>,
}

// Written out, so that an owner proves one call on each return path.
impl Drop for Sessions {
    fn drop(self) {
        let Sessions {
            alloc: _,
            profile: _,
            catalog: _,
            lines: _,
            shelf: _,
            table: _,
        } = self;
    }
}

/// A session of a profile and its workers, with this address in the place of the profile's, where there is one.
fn world_of(
    alloc: Global,
    profile: &Profile,
    catalog: &ShapedCatalog,
    ue: Option<Addr>,
) -> Result<WorldState, ScriptFault>
    ensures made { IfOk result (IsOpenedWorld
        (with_address ue (setting_of profile.now catalog.now))) }
    ensures opened { Opened (with_address ue (setting_of profile.now catalog.now)) result }
    ensures fault { IfErr result OpenFails }
{
    let Ok(listing) = catalog.listing().share() else {
        return Err(ScriptFault::NoMemory);
    };
    let profile = Profile {
        ue: ue.unwrap_or(profile.ue),
        default_qos: profile.default_qos,
        capacity: profile.capacity,
        qcis: profile.qcis,
        rows: profile.rows,
        commands: profile.commands,
    };
    match WorldState::open(alloc, profile, listing) {
        Ok(world) => Ok(world),
        Err(OpenFault::NoMemory) => Err(ScriptFault::NoMemory),
        Err(fault) => Err(ScriptFault::Profile(fault)),
    }
}

impl Sessions {
    /// No session, where one of this profile can be opened. Else the profile's fault, or that memory ran out. The names
    /// are hashed by these keys, which are to be random, since strangers choose names. Takes memory.
    pub fn new(
        alloc: Global,
        profile: Profile,
        catalog: ShapedCatalog,
        keys: RandomState,
    ) -> Result<Sessions, ScriptFault>
        ensures opened { Opened (setting_of profile catalog) result }
        ensures fault { IfErr result OpenFails }
        ensures fixed { IfOk result (λ s. fixed s ≡ setting_of profile catalog) }
        ensures none { IfOk result (λ s. (name : List ℕ) → held s name ≡ None) }
    {
        let _opened = world_of(alloc, &profile, &catalog, None)?;
        let Ok(catalog) = Arc::new(alloc, catalog) else {
            return Err(ScriptFault::NoMemory);
        };
        Ok(Sessions {
            alloc,
            profile,
            catalog,
            lines: LineReader::new(alloc),
            shelf: IndexShelf::new(alloc),
            table: HashMap::with_hasher(alloc, keys),
        })
    }

    /// The session of a name, if there is one.
    pub(crate) fn find(&self, name: &SessionName) -> Option<&Held>
        ensures { option_map (λ s. s.now.session) result ≡ held self.now name.now }
    {
        match self.table.get(name) {
            Some(held) => Some(&**held),
            None => None,
        }
    }

    /// Whether there are fewer than so many sessions.
    pub(crate) fn are_below(&self, many: usize) -> bool {
        self.table.len() < many
    }

    /// A session that is just opened.
    fn open(&self, ue: Option<Addr>) -> Result<Box<Held>, AllocError>
        ensures { IfOk result (λ b. b.value.session ≡ opened (with_address ue (fixed self.now))) }
    {
        let Ok(world) = world_of(self.alloc, &self.profile, &self.catalog, ue) else {
            return Err(AllocError);
        };
        let catalog = Arc::try_clone(&self.catalog)?;
        let held = Box::new(self.alloc, Held::new(catalog, world))?;
        Ok(held)
    }

    /// Opens a session under a name, in the place of one that is there.
    fn start(&mut self, name: &SessionName, ue: Option<Addr>) -> Result<(), AllocError>
        ensures there { OnOk result (Becomes self.old self.new name.now
            (Some (opened (with_address ue (fixed self.old))))) }
        ensures lacks { OnErr result (AllStay self.old self.new) }
        ensures fixed { fixed self.new ≡ fixed self.old }
    {
        let held = self.open(ue)?;
        self.table.insert(name.copy(), held)?;
        Ok(())
    }

    /// Ends the session of a name, if there is one.
    fn stop(&mut self, name: &SessionName)
        ensures there { Becomes self.old self.new name.now None }
        ensures fixed { fixed self.new ≡ fixed self.old }
    {
        let _ended = self.table.remove(name);
    }

    /// The answer of a script to a line for a name, if there is a session. Where the line changed its rules, it may
    /// share an index then.
    fn run(&mut self, name: &SessionName, line: &[u8]) -> Result<Option<LineAnswer>, AllocError>
        requires { is_blank_line line.now ≡ false }
        ensures there { IfOk result (λ a. Runs (held self.old name.now) line.now a
            (held self.new name.now)) }
        ensures lacks { OnErr result (RunLacks (held self.old name.now) line.now (held self.new name.now)) }
        ensures others { OthersStay self.old name.now self.new }
        ensures fixed { fixed self.new ≡ fixed self.old }
    {
        match self.table.get_mut(name) {
            None => Ok(None),
            Some(held) => match held.answer(self.alloc, &mut self.lines, line) {
                Ok(answer) => {
                    held.share_index(&mut self.shelf);
                    Ok(Some(answer))
                }
                Err(error) => Err(error),
            },
        }
    }

    /// The answer to a line that opens a session. It comes first, so that nothing is done where memory is lacking.
    fn answer_open(
        &mut self,
        name: &SessionName,
        ue: Option<Addr>,
    ) -> Result<LineAnswer, AllocError>
        ensures answer { IfOk result (λ a. Asks self.old name.now (asking.Open ue) a self.new) }
        ensures lacks { OnErr result (AllStay self.old self.new) }
        ensures fixed { fixed self.new ≡ fixed self.old }
    {
        if self.table.contains_key(name) {
            return says(
                self.alloc,
                "{\"name\":\"SessionIsOpen\",\"refused\":1}",
                false,
            );
        }
        let answer = says(self.alloc, "{\"ok\":true}", false)?;
        self.start(name, ue)?;
        Ok(answer)
    }

    /// The answer to a line that renews a session. Its rules may share an index then.
    fn asked_renew(&mut self, name: &SessionName) -> Result<LineAnswer, AllocError>
        ensures answer { IfOk result (λ a. Asks self.old name.now asking.Renew a self.new) }
        ensures lacks { OnErr result (LacksAsked self.old name.now asking.Renew self.new) }
        ensures fixed { fixed self.new ≡ fixed self.old }
    {
        match self.table.get_mut(name) {
            None => says(self.alloc, "{\"name\":\"NoSession\",\"refused\":0}", false),
            Some(held) => match held.renew(self.alloc) {
                Ok(answer) => {
                    held.share_index(&mut self.shelf);
                    Ok(answer)
                }
                Err(error) => Err(error),
            },
        }
    }

    /// The answer to a line that asks for the session's lines.
    fn asked_lines(&self, name: &SessionName) -> Result<LineAnswer, AllocError>
        ensures { IfOk result (λ a. AsksOf (fixed self.now) (held self.now name.now) asking.Lines a
            (held self.now name.now)) }
    {
        match self.table.get(name) {
            None => says(self.alloc, "{\"name\":\"NoSession\",\"refused\":0}", false),
            Some(held) => held.lines(self.alloc),
        }
    }

    /// The answer to a line that ends a session. It comes first, so that nothing is done where memory is lacking.
    fn asked_end(&mut self, name: &SessionName) -> Result<LineAnswer, AllocError>
        ensures answer { IfOk result (λ a. Asks self.old name.now asking.End a self.new) }
        ensures lacks { OnErr result (AllStay self.old self.new) }
        ensures fixed { fixed self.new ≡ fixed self.old }
    {
        if !self.table.contains_key(name) {
            return says(self.alloc, "{\"name\":\"NoSession\",\"refused\":0}", false);
        }
        let answer = says(self.alloc, "{\"ok\":true}", false)?;
        self.stop(name);
        Ok(answer)
    }

    /// The answer to a line that asks this of the sessions, or of a session that isn't open.
    fn ask(&mut self, name: &SessionName, asking: Asking) -> Result<LineAnswer, AllocError>
        ensures answer { IfOk result (λ a. Asks self.old name.now asking a self.new) }
        ensures lacks { OnErr result (LacksAsked self.old name.now asking self.new) }
        ensures fixed { fixed self.new ≡ fixed self.old }
    {
        match asking {
            Asking::Open(ue) => self.answer_open(name, ue),
            Asking::Renew => self.asked_renew(name),
            Asking::Lines => self.asked_lines(name),
            Asking::End => self.asked_end(name),
            Asking::Fault(fault) => says_fault(self.alloc, fault),
            Asking::Script => says(self.alloc, "{\"name\":\"NoSession\",\"refused\":0}", false),
        }
    }

    /// The answer to a line of a session that isn't open.
    fn ask_first(&mut self, name: &SessionName, line: &[u8]) -> Result<LineAnswer, AllocError>
        ensures answer { IfOk result (λ a. Asks self.old name.now (asked_of line.now) a self.new) }
        ensures lacks { OnErr result (LacksAsked self.old name.now (asked_of line.now) self.new) }
        ensures fixed { fixed self.new ≡ fixed self.old }
    {
        let asking = asked_of(self.alloc, line)?;
        self.ask(name, asking)
    }

    /// The answer to a line of a script at fault, which is for the sessions if it opens one, renews one, shows its lines or
    /// ends one.
    fn ask_instead(
        &mut self,
        name: &SessionName,
        line: &[u8],
        answer: LineAnswer,
    ) -> Result<LineAnswer, AllocError>
        ensures answer { IfOk result (λ a. AsksInstead self.old name.now line.now answer a self.new) }
        ensures lacks { OnErr result (LacksAsked self.old name.now (asked_of line.now) self.new) }
        ensures fixed { fixed self.new ≡ fixed self.old }
    {
        match asked_of(self.alloc, line)? {
            Asking::Script => Ok(answer),
            asking => self.ask(name, asking),
        }
    }

    /// The answer to a line for a name.
    fn answer_to(&mut self, name: &SessionName, line: &[u8]) -> Result<LineAnswer, AllocError>
        requires { is_blank_line line.now ≡ false }
        ensures answer { IfOk result (λ a. AnswersIn self.old name.now line.now a self.new) }
        ensures lacks { OnErr result (LacksIn self.old name.now line.now self.new) }
        ensures fixed { fixed self.new ≡ fixed self.old }
    {
        match self.run(name, line)? {
            None => self.ask_first(name, line),
            Some(answer) => {
                if answer.is_fault {
                    self.ask_instead(name, line, answer)
                } else {
                    Ok(answer)
                }
            }
        }
    }

    /// Does what a line asks for: a session's name, one space, and a line of a script, or one that opens the session,
    /// renews it, shows its lines or ends it. Nothing is done for a line without name, space or rest. Takes memory for the
    /// answer and for what a session keeps. When out of memory, what stands under the name is as before, or as after the
    /// line; the other names keep what they have.
    pub fn answer(&mut self, line: &[u8]) -> Result<NamedAnswer, AllocError>
        ensures answer { IfOk result (λ t. AnswersNamedLine self.old line.now t self.new) }
        ensures lacks { OnErr result (LacksForNamedLine self.old line.now self.new) }
        ensures fixed { fixed self.new ≡ fixed self.old }
    {
        match split_name(line) {
            None => Ok(NamedAnswer {
                name: None,
                answer: says(self.alloc, "{\"fault\":1,\"name\":\"BadName\"}", true)?,
            }),
            Some((name, rest)) => {
                let answer = self.answer_to(&name, rest)?;
                Ok(NamedAnswer {
                    name: Some(name),
                    answer,
                })
            }
        }
    }
    /// The answer of a script to a line of which this was read, if there is a session. It changes no rules.
    fn run_read(
        &mut self,
        name: &SessionName,
        read: Result<Line, LineFault>,
    ) -> Result<Option<LineAnswer>, AllocError>
        ensures there { IfOk result (λ a. RunsRead (held self.old name.now) read a (held self.new name.now)) }
        ensures lacks { OnErr result (RunReadLacks (held self.old name.now) read (held self.new name.now)) }
        ensures others { OthersStay self.old name.now self.new }
        ensures fixed { fixed self.new ≡ fixed self.old }
    {
        match self.table.get_mut(name) {
            None => Ok(None),
            Some(held) => {
                let answer = held.answer_read(self.alloc, read)?;
                Ok(Some(answer))
            }
        }
    }

    /// The answer to a line for a name of which this was read, and which asks nothing of the sessions.
    fn answer_read(
        &mut self,
        name: &SessionName,
        read: Result<Line, LineFault>,
    ) -> Result<LineAnswer, AllocError>
        ensures answer { IfOk result (λ a. AnswersRead self.old name.now read a self.new) }
        ensures lacks { OnErr result (LacksRead self.old name.now read self.new) }
        ensures fixed { fixed self.new ≡ fixed self.old }
    {
        match self.run_read(name, read)? {
            None => says(self.alloc, "{\"name\":\"NoSession\",\"refused\":0}", false),
            Some(answer) => Ok(answer),
        }
    }

    /// The answer to a packet for a worker, as to its line.
    fn answer_take(
        &mut self,
        name: &SessionName,
        worker: u8,
        dir: Dir,
        packet: &[u8],
    ) -> Result<LineAnswer, AllocError>
        requires worker { worker ≤ 15 }
        requires packet { length packet.now ≤ 65575 }
        ensures answer { IfOk result (λ a. AnswersIn self.old name.now
            (take_text worker dir (encode_lower packet.now)) a self.new) }
        ensures lacks { OnErr result (LacksIn self.old name.now
            (take_text worker dir (encode_lower packet.now)) self.new) }
        ensures fixed { fixed self.new ≡ fixed self.old }
    {
        self.answer_read(name, take_line(worker, dir, packet))
    }

    /// The answer to a flush of a worker, as to its line.
    fn answer_flush(&mut self, name: &SessionName, worker: u8) -> Result<LineAnswer, AllocError>
        requires { worker ≤ 15 }
        ensures answer { IfOk result (λ a. AnswersIn self.old name.now
            (step_text (codes "flush") worker) a self.new) }
        ensures lacks { OnErr result (LacksIn self.old name.now
            (step_text (codes "flush") worker) self.new) }
        ensures fixed { fixed self.new ≡ fixed self.old }
    {
        self.answer_read(name, Ok(flush_line(worker)))
    }

    /// The answer to what a frame says to a session.
    fn answer_said(&mut self, name: &SessionName, said: Frame<'_>) -> Result<LineAnswer, AllocError>
        requires right { IsRight said }
        ensures answer { IfOk result (λ a. AnswersIn self.old name.now (line_of said.entry) a self.new) }
        ensures lacks { OnErr result (LacksIn self.old name.now (line_of said.entry) self.new) }
        ensures fixed { fixed self.new ≡ fixed self.old }
    {
        match said {
            Frame::Line(line) => self.answer_to(name, line),
            Frame::Take {
                worker,
                dir,
                packet,
            } => self.answer_take(name, worker, dir, packet),
            Frame::Flush { worker } => self.answer_flush(name, worker),
        }
    }

    /// The answer to a malformed frame.
    pub(crate) fn malformed(&self, fault: FrameFault) -> Result<NamedAnswer, AllocError>
        ensures { IfOk result (λ t. said_of t ≡ malformed fault) }
    {
        says_malformed(self.alloc, fault)
    }

    /// Does what the line asks for that a frame means, and answers as [`Sessions::answer`] does to it. A malformed frame
    /// is answered with its fault, and nothing is done for it. The frame comes without its length. Takes memory as
    /// `answer` does, but for the line; when out of memory, all is as where `answer` is.
    pub fn answer_frame(&mut self, frame: &[u8]) -> Result<NamedAnswer, AllocError>
        ensures answer { IfOk result (λ t. AnswersFrame self.old frame.now t self.new) }
        ensures lacks { OnErr result (LacksForFrame self.old frame.now self.new) }
        ensures fixed { fixed self.new ≡ fixed self.old }
    {
        match read_frame(frame) {
            Ok((name, said)) => {
                let answer = self.answer_said(&name, said)?;
                let name = Some(name);
                Ok(NamedAnswer { name, answer })
            }
            Err(fault) => self.malformed(fault),
        }
    }
}
