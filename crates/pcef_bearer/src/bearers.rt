//! The bearers of a session, and the rules that are bound to them.

ghost use Rattle.std.specs.Prelude.{◌≡◌, ◌≤◌, ◌<◌, ◌↔◌, ◌&&◌, is_none, is_some, [], ◌∷◌, ◌++◌, IfErr, IfOk, IsOk, OnErr, OnOk, Err, Some, None, length, true, false};
ghost use Rattle.std.specs.List.{list_any};
ghost use Rattle.pcef_rule.specs.declared.qci.Kind.TheVariants as kind;
ghost use Rattle.pcef_rule.specs.QciKinds.{kind_of};
ghost use Rattle.pcef_model.specs.declared.answer.OpenFault.TheVariants as fault;
ghost use Rattle.pcef_bearer.specs.Bindings.{bearer_of_rule, guaranteed, is_bound_as, rules_on};
ghost use Rattle.pcef_bearer.specs.BindingSteps.{bound_with, empty_binding, first_refusal, id_for, kept_by, left_by, id_number, qos_on, refusal_in, bound_total, total_with, with_rules, without_bound, GetsId, HasRoom, IsAccepted, IsBinding, IsRefusalBy};
ghost use Rattle.pcef_model.specs.Bearers.{is_gbr, is_non_gbr};
ghost use Rattle.pcef_model.specs.Refusals.{first_of, over_room};

use crate::ids::{DEFAULT_BEARER, count_on, finds_no_bearer, first_on, id_excluding, is_present};
use crate::lookup::{bound_under, drop_named, drop_taken, has_name, put};
use crate::rates::{is_over, is_over_room, sums_excluding, sums_of, sums_of_all, sums_on};
use pcef_model::{Command, OpenFault, Refusal};
use pcef_rule::{BearerId, Kind, QciTable, Qos, Rates, RuleName, Sums};
use std::alloc::{AllocError, Global};
use std::marker::Model;

/// The most rules that are bound.
pub const MAX_BOUND: usize = 64;

/// An active rule and the bearer that it is bound to.
#[derive(Debug, PartialEq, Eq, Drop)]
pub struct Bound {
    /// The name of the rule.
    pub name: RuleName,
    /// Its QCI and ARP.
    pub qos: Qos,
    /// Its guaranteed rates, where its QCI has some.
    pub rates: Option<Rates>,
    /// Its bearer.
    pub bearer: BearerId,
}

/// Memory for rules that are bound later.
pub type Places = pcef_base::Places<Bound>;

/// What is left of a rule that is no longer bound.
#[derive(Clone, Copy, Debug, PartialEq, Eq)]
pub struct Released {
    /// The bearer that it was bound to.
    pub bearer: BearerId,
    /// Whether the bearer ended with it: it isn't the default one, and no other rule is on it.
    pub ended: bool,
}

/// The bearers of a session, and the rules that are bound to them. Two rules are on one bearer exactly where they have
/// the same QCI and the same ARP (TS 23.203, clause 6.1.1.4). Memory is taken for each bound rule: see [`Places`].
pub struct Bearers {
    alloc: Global,
    default_qos: Qos,
    capacity: Sums,
    qcis: QciTable,
    bound: Vec<Bound>,
}

// Written out, so that an owner proves one call on each return path.
impl Drop for Bearers {
    fn drop(self) {
        let Bearers {
            alloc: _,
            default_qos: _,
            capacity: _,
            qcis: _,
            bound: _,
        } = self;
    }
}

impl Model for Bearers {
    ghost use Rattle.std.specs.Prelude.{◌<◌, ◌^◌};
    ghost use Rattle.pcef_bearer.specs.Bindings.{Binding};
    ghost use Rattle.pcef_bearer.specs.BindingSteps.{IsBinding};

    ghost Value = { Binding };

    ghost view = { λ b. record {
      default_qos = b.default_qos;
      capacity = b.capacity;
      qcis = b.qcis;
      bound = b.bound.items;
    } };

    ghost invariant = { λ b. IsBinding (record {
      default_qos = b.default_qos;
      capacity = b.capacity;
      qcis = b.qcis;
      bound = b.bound.items;
    })
        × (b.capacity.up < 2 ^ 64) × (b.capacity.down < 2 ^ 64) };
}

/// Whether a rule of a GBR QCI has no rates.
fn lacks_rates(kind: Option<Kind>, rates: Option<Rates>) -> bool
    ensures { result ≡ (is_gbr kind && is_none rates) }
{
    match kind {
        Some(Kind::Gbr) => match rates {
            None => true,
            Some(_) => false,
        },
        Some(Kind::NonGbr) => false,
        None => false,
    }
}

/// Whether a rule of a non-GBR QCI has rates.
fn has_unwanted_rates(kind: Option<Kind>, rates: Option<Rates>) -> bool
    ensures { result ≡ (is_non_gbr kind && is_some rates) }
{
    match kind {
        Some(Kind::NonGbr) => match rates {
            None => false,
            Some(_) => true,
        },
        Some(Kind::Gbr) => false,
        None => false,
    }
}

impl Bearers {
    /// The default bearer for this pair of QCI and ARP, with this capacity in bit/s, or the first fault in the order of
    /// [`OpenFault`]. Takes no memory, so it is never `NoMemory`.
    pub fn new(
        alloc: Global,
        default_qos: Qos,
        capacity: Sums,
        qcis: QciTable,
    ) -> Result<Bearers, OpenFault>
        ensures unknown { (result ≡ Err fault.UnknownQci)
            ↔ (kind_of qcis default_qos.qci.0 ≡ None) }
        ensures gbr { (result ≡ Err fault.DefaultIsGbr)
            ↔ (kind_of qcis default_qos.qci.0 ≡ Some kind.Gbr) }
        ensures accepted { IsOk result ↔ (kind_of qcis default_qos.qci.0 ≡ Some kind.NonGbr) }
        ensures made { IfOk result (λ b. b ≡ empty_binding default_qos capacity qcis) }
    {
        match qcis.kind_of(default_qos.qci) {
            None => Err(OpenFault::UnknownQci),
            Some(Kind::Gbr) => Err(OpenFault::DefaultIsGbr),
            Some(Kind::NonGbr) => Ok(Bearers {
                alloc,
                default_qos,
                capacity,
                qcis,
                bound: Vec::new(alloc),
            }),
        }
    }

    /// The rules that are bound: at most 64, with distinct names. Two of them are on one bearer exactly where they have
    /// the same pair, and the sums of their rates are within the capacity.
    pub fn bound(&self) -> &[Bound]
        ensures bound { result.now ≡ self.now.bound }
        ensures binding { IsBinding self.now }
    {
        self.bound.as_slice()
    }

    /// Whether a rule of this name is bound.
    pub fn is_bound(&self, name: &RuleName) -> bool
        ensures { result ≡ list_any (is_bound_as name.now) self.now.bound }
    {
        has_name(&self.bound, name)
    }

    /// Why a rule of this name can't be bound with this pair and these rates, if it can't: its QCI isn't known or wants
    /// other rates, there is no further bearer, or its guaranteed rates go over the session's capacity together with
    /// those of all other rules. A rule that is bound under its name doesn't count.
    pub fn refusal(&self, name: &RuleName, qos: Qos, rates: Option<Rates>) -> Option<Refusal>
        ensures { result ≡ first_refusal self.now name.now qos rates }
    {
        self.refusal_excluding(name, &qos, rates)
    }

    /// Why the rates of all rules would exceed a room with a rule of this name and these rates, if they would. A rule
    /// that is bound under its name doesn't count.
    pub fn room_refusal(&self, name: &RuleName, rates: Option<Rates>, room: Sums) -> Option<Refusal>
        ensures { result ≡ first_of (over_room room (total_with self.now name.now rates)) }
    {
        let rest = sums_excluding(name, &self.bound);
        let own = sums_of(rates);
        if is_over_room(room.up, rest.up, own.up) {
            return Some(Refusal::PoolUp);
        }
        if is_over_room(room.down, rest.down, own.down) {
            return Some(Refusal::PoolDown);
        }
        None
    }

    /// The sums of the guaranteed rates of all rules.
    pub fn total(&self) -> Sums
        ensures { result ≡ bound_total self.now.bound }
    {
        sums_of_all(&self.bound)
    }

    /// The bearer that a rule of this name gets by this pair: the one of the pair, or else the least id that no other
    /// rule is on.
    pub fn bearer_for(&self, name: &RuleName, qos: Qos) -> Option<BearerId>
        ensures { id_number result ≡ id_for self.now name.now qos }
    {
        self.bearer_excluding(name, &qos)
    }

    fn refusal_excluding(&self, name: &RuleName, qos: &Qos, rates: Option<Rates>) -> Option<Refusal>
        ensures { result ≡ first_refusal self.now name.now qos.now rates }
    {
        let kind = self.qcis.kind_of(qos.qci);
        if kind.is_none() {
            return Some(Refusal::UnknownQci);
        }
        if lacks_rates(kind, rates) {
            return Some(Refusal::RatesMissing);
        }
        if has_unwanted_rates(kind, rates) {
            return Some(Refusal::RatesNotWanted);
        }
        if finds_no_bearer(&self.default_qos, name, &self.bound, qos) {
            return Some(Refusal::TooManyBearers);
        }
        let others = sums_excluding(name, &self.bound);
        let more = sums_of(rates);
        if is_over(self.capacity.up, others.up, more.up) {
            return Some(Refusal::OverCapacityUp);
        }
        if is_over(self.capacity.down, others.down, more.down) {
            return Some(Refusal::OverCapacityDown);
        }
        None
    }

    fn bearer_excluding(&self, name: &RuleName, qos: &Qos) -> Option<BearerId>
        ensures { id_number result ≡ id_for self.now name.now qos.now }
    {
        id_excluding(&self.default_qos, name, &self.bound, qos)
    }

    /// Memory to bind a rule of this name: none where one is bound.
    pub fn places_for(&self, name: &RuleName) -> Result<Places, AllocError>
        ensures { IfOk result (λ places. HasRoom name.now places self.now.bound) }
    {
        if has_name(&self.bound, name) {
            Ok(Places::none(self.alloc))
        } else {
            Places::new(self.alloc, self.bound.len() + 1)
        }
    }

    fn set(
        &mut self,
        name: RuleName,
        qos: &Qos,
        rates: Option<Rates>,
        places: Places,
    ) -> Result<BearerId, Refusal>
        requires room { HasRoom name 64 self.old.bound }
        requires places { HasRoom name places self.old.bound }
        ensures refused { refusal_in result ≡ first_refusal self.old name qos.now rates }
        ensures unchanged { OnErr result (self.new ≡ self.old) }
        ensures bearer { IfOk result (λ id. GetsId self.old name qos.now id.0) }
        ensures bound { IfOk result (λ id. self.new ≡ bound_with self.old name qos.now rates id.0) }
    {
        if let Some(refusal) = self.refusal_excluding(&name, qos, rates) {
            return Err(refusal);
        }
        let Some(bearer) = self.bearer_excluding(&name, qos) else {
            unreachable!()
        };
        self.bind_to(name, *qos, rates, bearer, places);
        Ok(bearer)
    }

    /// Binds a rule that isn't bound, and returns its bearer, or the first refusal in the order of [`Refusal`]: the
    /// last is [`Refusal::NoMemory`].
    pub fn bind(
        &mut self,
        name: RuleName,
        qos: Qos,
        rates: Option<Rates>,
    ) -> Result<BearerId, Refusal>
        requires new { list_any (is_bound_as name) self.old.bound ≡ false }
        requires room { length self.old.bound < 64 }
        ensures refused { IfErr result (IsRefusalBy (first_refusal self.old name qos rates)) }
        ensures accepted { OnOk result (first_refusal self.old name qos rates ≡ None) }
        ensures unchanged { OnErr result (self.new ≡ self.old) }
        ensures bearer { IfOk result (λ id. GetsId self.old name qos id.0) }
        ensures bound { IfOk result (λ id. self.new ≡ bound_with self.old name qos rates id.0) }
    {
        match self.places_for(&name) {
            Ok(places) => self.set(name, &qos, rates, places),
            Err(AllocError) => match self.refusal(&name, qos, rates) {
                Some(refusal) => Err(refusal),
                None => Err(Refusal::NoMemory),
            },
        }
    }

    /// Binds a bound rule anew, and returns its bearer, or the first refusal in the order of [`Refusal`], which changes
    /// nothing. A rule whose pair stays keeps its bearer; with a new pair it may get the bearer that it leaves. Takes
    /// no memory.
    pub fn rebind(
        &mut self,
        name: RuleName,
        qos: Qos,
        rates: Option<Rates>,
    ) -> Result<BearerId, Refusal>
        requires { list_any (is_bound_as name) self.old.bound ≡ true }
        ensures refused { refusal_in result ≡ first_refusal self.old name qos rates }
        ensures unchanged { OnErr result (self.new ≡ self.old) }
        ensures bearer { IfOk result (λ id. GetsId self.old name qos id.0) }
        ensures bound { IfOk result (λ id. self.new ≡ bound_with self.old name qos rates id.0) }
    {
        self.set(name, &qos, rates, Places::none(self.alloc))
    }

    /// Binds a rule, anew where it is bound, to the bearer that [`Bearers::bearer_for`] gives, where
    /// [`Bearers::refusal`] finds nothing against it. Checks nothing again, and takes no memory but `places`.
    pub fn bind_to(
        &mut self,
        name: RuleName,
        qos: Qos,
        rates: Option<Rates>,
        bearer: BearerId,
        places: Places,
    )
        requires accepted { IsAccepted self.old name qos rates }
        requires gets { GetsId self.old name qos bearer.0 }
        requires room { HasRoom name 64 self.old.bound }
        requires places { HasRoom name places self.old.bound }
        ensures { self.new ≡ bound_with self.old name qos rates bearer.0 }
    {
        let new = Bound {
            name,
            qos,
            rates,
            bearer,
        };
        put(&mut self.bound, places, new);
    }

    /// Drops the rule of this name, and returns what it leaves, or `None` where no rule of this name is bound.
    pub fn unbind(&mut self, name: &RuleName) -> Option<Released>
        ensures released { result ≡ left_by name.now self.old.bound }
        ensures bound { self.new ≡ with_rules self.old (without_bound name.now self.old.bound) }
    {
        let Some(bearer) = self.bearer_of(name) else {
            return None;
        };
        drop_named(&mut self.bound, name);
        let ended = !is_present(bearer, &self.bound);
        Some(Released { bearer, ended })
    }

    /// Drops the rules that a command removes. Takes no memory.
    pub fn take_away(&mut self, command: &Command)
        ensures { self.new ≡ with_rules self.old (kept_by command.now self.old.bound) }
    {
        drop_taken(&mut self.bound, command);
    }

    /// The bearer of the rule of this name, if it is bound.
    pub fn bearer_of(&self, name: &RuleName) -> Option<BearerId>
        ensures { result ≡ bearer_of_rule name.now self.now.bound }
    {
        match bound_under(&self.bound, name) {
            Some(b) => Some(b.bearer),
            None => None,
        }
    }

    /// The sums of the guaranteed rates on a bearer, or `None` where there is no bearer of this id.
    pub fn guaranteed(&self, id: BearerId) -> Option<Sums>
        ensures { result ≡ guaranteed id.0 self.now.bound }
    {
        if is_present(id, &self.bound) {
            Some(sums_on(id, &self.bound))
        } else {
            None
        }
    }

    /// The QCI and ARP of a bearer, which all of its rules have (TS 23.203, clause 6.1.1.4), or `None` where there is no
    /// bearer of this id.
    pub fn qos_on(&self, id: BearerId) -> Option<Qos>
        ensures { result ≡ qos_on id.0 self.now }
    {
        if id.0 == DEFAULT_BEARER.0 {
            return Some(self.default_qos);
        }
        match first_on(id, &self.bound) {
            Some(b) => Some(b.qos),
            None => None,
        }
    }

    /// How many rules are on a bearer.
    pub fn rules_on(&self, id: BearerId) -> u8
        ensures { result ≡ length (rules_on id.0 self.now.bound) }
    {
        count_on(id, &self.bound) as u8
    }
}
