//! What the newest generation decides of a packet, for callers that keep no row, by the flows that were judged before.

ghost use Rattle.std.specs.Prelude.{◌≡◌, IfOk, map, true};
ghost use Rattle.std.specs.Arc.{arc_value};
ghost use Rattle.pcef_packet.specs.declared.header.Addr.{Addr};
ghost use Rattle.pcef_catalog.specs.declared.listing.Offer.{Offer};
ghost use Rattle.pcef_flow.specs.Flows.{Remembers};
ghost use Rattle.pcef_table.specs.Sources.{IsKnown};
ghost use Rattle.pcef_table.specs.Tables.{IsTable};
ghost use Rattle.pcef_table.specs.Verdicts.{counted_slot};
ghost use Rattle.pcef_world.specs.Newest.{IsBriefOf, IsNewestBrief, brief_of, flag_of, flags_of, outcome_of};
ghost use Rattle.pcef_world.specs.private.Followed.{Follows, FollowsNewest, decided_at, rule_brief, rule_briefs, rule_decides, undecided};

use crate::world::WorldState;
use arrayvec::ArrayVec;
use pcef_catalog::{Detects, Offers};
use pcef_flow::{FlowCache, NotOwn};
use pcef_index::{Decision, Indexed};
use pcef_model::Verdict;
use pcef_packet::{Addr, Dir, Header};
use pcef_rule::{BearerId, Slot};
use pcef_table::{Table, TableEntry};
use std::alloc::{AllocError, Global};
use std::sync::Arc;

/// A verdict without the name of its rule.
#[derive(Clone, Copy, Debug, PartialEq, Eq)]
pub enum Outcome {
    /// The packet passes on this bearer.
    Passed(BearerId),
    /// The rule's gate is closed.
    Gated,
    /// No rule fits.
    Unmatched,
    /// The packet is none of the session's.
    Stray,
}

impl Outcome {
    /// What a verdict says beside the name of its rule.
    pub fn of(verdict: &Verdict) -> Outcome
        ensures { result ≡ outcome_of verdict.now }
    {
        match verdict {
            Verdict::Passed { bearer, .. } => Outcome::Passed(*bearer),
            Verdict::Gated { .. } => Outcome::Gated,
            Verdict::Unmatched => Outcome::Unmatched,
            Verdict::Stray => Outcome::Stray,
        }
    }
}

/// The flags of slots 0 to 7.
const FLAGS: [u8; 8] = [1, 2, 4, 8, 16, 32, 64, 128];

fn flag_of(slot: Slot) -> u8
    ensures { result ≡ flag_of slot.0 }
{
    match FLAGS.get(usize::from(slot.0)) {
        Some(flag) => *flag,
        None => 0,
    }
}

/// Slots as flags: bit n is set where slot n is among them.
pub fn flags_of(slots: &[Slot]) -> u8
    ensures { result ≡ flags_of slots.now 0 }
{
    let mut flags = 0u8;
    for slot in slots {
        flags |= flag_of(*slot);
    }
    flags
}

/// What a generation decides of a packet, without the name of the rule, which its place tells.
#[derive(Clone, Copy, Debug, PartialEq, Eq)]
pub struct Brief {
    /// The number of the generation.
    pub generation: u32,
    /// The verdict.
    pub outcome: Outcome,
    /// The place of the rule that decided, where one did: the number of active rules before it.
    pub place: Option<u8>,
    /// Bit n is set where the packet counts for slot n.
    pub slots: u8,
}

/// A decision of the generation of this number in brief.
fn brief_of(generation: u32, decision: Decision) -> Brief
    ensures { result ≡ brief_of generation decision.verdict decision.place decision.slots.items }
{
    let slots = flags_of(&decision.slots);
    Brief {
        generation,
        outcome: Outcome::of(&decision.verdict),
        place: decision.place,
        slots,
    }
}

/// What a rule of a table decides of the packets that it fits, by its gate, its bearer and the slots of those that pass.
#[derive(Clone, Copy, Default)]
pub(crate) struct RuleBrief {
    bearer: u8,
    opens_up: bool,
    opens_down: bool,
    slots: u8,
}

impl RuleBrief {
    /// What it decides of a packet of this direction, where it stands at this place.
    #[inline(always)]
    fn decides(&self, generation: u32, place: u8, dir: Dir) -> Brief
        ensures { result ≡ rule_decides generation place dir self.now }
    {
        let opens = match dir {
            Dir::Up => self.opens_up,
            Dir::Down => self.opens_down,
        };
        if !opens {
            return Brief {
                generation,
                outcome: Outcome::Gated,
                place: Some(place),
                slots: 0,
            };
        }
        Brief {
            generation,
            outcome: Outcome::Passed(BearerId(self.bearer)),
            place: Some(place),
            slots: self.slots,
        }
    }
}

/// The slot of an entry, where it is counted.
fn counted_slot(entry: &TableEntry) -> Option<Slot>
    ensures { result ≡ counted_slot entry.now }
{
    if entry.counted { entry.slot } else { None }
}

fn rule_brief<C: Offers>(catalog: &C, table: &Table, entry: &TableEntry) -> RuleBrief
    requires { IsKnown (C.offers catalog.now) entry.now.source }
    ensures { result ≡ rule_brief (C.offers catalog.now) table.now.session entry.now }
{
    let properties = entry.source.properties(catalog);
    let passed = Verdict::Passed {
        rule: properties.name.copy(),
        bearer: entry.bearer,
    };
    let slots = table.slots_beside(&passed, counted_slot(entry));
    RuleBrief {
        bearer: entry.bearer.0,
        opens_up: properties.gate.opens(Dir::Up),
        opens_down: properties.gate.opens(Dir::Down),
        slots: flags_of(&slots),
    }
}

/// What each rule of a table decides, in the order of its entries.
fn rule_briefs<C: Offers>(catalog: &C, table: &Table) -> ArrayVec<RuleBrief, 64>
    requires { IsTable (C.offers catalog.now) table.now.entries }
    ensures { result.items ≡ rule_briefs (C.offers catalog.now) table.now }
{
    let mut rules = ArrayVec::new();
    for entry in table.entries() {
        rules.push(rule_brief(catalog, table, entry));
    }
    rules
}

/// A table with what its rules decide, and the flows that it judged last.
#[derive(Drop)]
pub(crate) struct JudgedFlows {
    held: Arc<Indexed>,
    rules: ArrayVec<RuleBrief, 64>,
    flows: FlowCache,
}

impl JudgedFlows {
    /// Places for so many flows. Which table's they are isn't said yet.
    fn new(alloc: Global, newest: &Arc<Indexed>, places: usize) -> Result<JudgedFlows, AllocError> {
        Ok(JudgedFlows {
            held: Arc::try_clone(newest)?,
            rules: ArrayVec::new(),
            flows: FlowCache::new(alloc, places)?,
        })
    }

    /// Forgets all flows, and is of this table from now on.
    fn follow<C: Offers>(&mut self, catalog: &C, newest: &Arc<Indexed>) -> Result<(), AllocError>
        requires { IsTable (C.offers catalog.now) (arc_value newest.now).entries }
        ensures { IfOk result (λ _. (ue : Addr) → Follows (C.offers catalog.now) ue (arc_value newest.now) self.new) }
    {
        self.held = Arc::try_clone(newest)?;
        self.flows.follow(catalog, self.held.table());
        self.rules = rule_briefs(catalog, self.held.table());
        Ok(())
    }

    /// The decision on a packet that no rule decides.
    #[inline(always)]
    fn undecided(&self, outcome: Outcome) -> Brief
        ensures { result ≡ undecided (arc_value self.now.held).number outcome }
    {
        Brief {
            generation: self.held.generation(),
            outcome,
            place: None,
            slots: 0,
        }
    }

    /// What the rule at a place decides of a packet of this direction, where there is one.
    #[inline(always)]
    fn decided_at(&self, place: Option<u8>, dir: Dir) -> Brief
        ensures { result ≡ decided_at (arc_value self.now.held).number self.now.rules.items place dir }
    {
        let Some(place) = place else {
            return self.undecided(Outcome::Unmatched);
        };
        match self.rules.get(usize::from(place)) {
            None => self.undecided(Outcome::Unmatched),
            Some(rule) => rule.decides(self.held.generation(), place, dir),
        }
    }

    /// What the table decides of a packet.
    #[inline(always)]
    fn judge<C: Detects>(&mut self, catalog: &C, ue: &Addr, header: &Header) -> Brief
        requires table { IsTable (C.offers catalog.now) (arc_value self.old.held).entries }
        requires follows { Follows (C.offers catalog.now) ue.now (arc_value self.old.held) self.old }
        ensures follows { Follows (C.offers catalog.now) ue.now (arc_value self.old.held) self.new }
        ensures brief { IsBriefOf (C.offers catalog.now) (arc_value self.old.held) ue.now header.now result }
    {
        match self.flows.own_place(&self.held, catalog, ue, header) {
            Ok(place) => self.decided_at(place, header.dir),
            Err(NotOwn) => self.undecided(Outcome::Stray),
        }
    }
}

impl WorldState {
    /// From now on [`WorldState::judge`] remembers so many flows, a power of two, of some 80 octets each. Nothing else
    /// changes. Takes memory for them. When out of memory, nothing changes.
    pub fn remember_flows(&mut self, places: usize) -> Result<(), AllocError>
        ensures { self.new ≡ self.old }
    {
        let flows = JudgedFlows::new(self.alloc, self.session.indexed(), places)?;
        let judged = Box::new(self.alloc, flows)?;
        self.is_followed = false;
        self.judged = Some(judged);
        Ok(())
    }

    /// Follows the newest table, where flows are remembered.
    #[inline(never)]
    fn follow_newest<C: Offers>(&mut self, catalog: &C)
        requires { C.offers catalog.now ≡ self.old.session.setting.catalog }
        ensures { self.new ≡ self.old }
    {
        if let Some(judged) = &mut self.judged {
            self.is_followed = judged.follow(catalog, self.session.indexed()).is_ok();
        }
    }

    /// What the newest generation decides of a packet, by a look-up.
    #[inline(never)]
    fn look_up<C: Detects>(&self, catalog: &C, header: &Header) -> Brief
        requires { C.offers catalog.now ≡ self.now.session.setting.catalog }
        ensures { IsNewestBrief self.now.session header.now result }
    {
        let newest: &Indexed = self.session.indexed();
        let decision = newest.judged(catalog, self.session.profile().ue, header);
        brief_of(newest.generation(), decision)
    }

    /// The same, by the flows that are remembered of it, where the newest table is followed.
    #[inline(always)]
    fn judge_followed<C: Detects>(&mut self, catalog: &C, header: &Header) -> Brief
        requires { C.offers catalog.now ≡ self.old.session.setting.catalog }
        ensures world { self.new ≡ self.old }
        ensures brief { IsNewestBrief self.old.session header.now result }
    {
        if self.is_followed {
            if let Some(judged) = &mut self.judged {
                return judged.judge(catalog, &self.session.profile().ue, header);
            }
        }
        // A copy, so that the header itself need not lie in memory.
        let copy = *header;
        self.look_up(catalog, &copy)
    }

    /// What the newest generation decides of a packet. No row is kept, and nothing that a contract sees changes. A flow
    /// that is remembered is judged without a look-up. Takes no memory.
    #[inline(always)]
    pub fn judge<C: Detects>(&mut self, catalog: &C, header: &Header) -> Brief
        requires { C.offers catalog.now ≡ self.old.session.setting.catalog }
        ensures world { self.new ≡ self.old }
        ensures brief { IsNewestBrief self.old.session header.now result }
    {
        if !self.is_followed {
            self.follow_newest(catalog);
        }
        self.judge_followed(catalog, header)
    }
}
