//! Why a rule can't be had.

ghost use Rattle.std.specs.Prelude.{◌≡◌};
ghost use Rattle.pcef_gx.specs.Failures.{failure_code, failure_of};

use pcef_model::Refusal;

/// Why a rule can't be had (TS 29.212, clause 5.3.38, Rule-Failure-Code).
#[derive(Clone, Copy, Debug, PartialEq, Eq)]
pub enum RuleFailure {
    UnknownRuleName,
    GatewayMalfunction,
    ResourcesLimitation,
    MaxNrBearersReached,
    UnknownBearerId,
    MissingFlowInformation,
    ResourceAllocationFailure,
    UnsuccessfulQosValidation,
    IncorrectFlowInformation,
    TdfApplicationIdentifierError,
    FilterRestrictions,
}

impl RuleFailure {
    /// The Rule-Failure-Code.
    pub fn code(self) -> u32
        ensures { result ≡ failure_code self }
    {
        match self {
            RuleFailure::UnknownRuleName => 1,
            RuleFailure::GatewayMalfunction => 4,
            RuleFailure::ResourcesLimitation => 5,
            RuleFailure::MaxNrBearersReached => 6,
            RuleFailure::UnknownBearerId => 7,
            RuleFailure::MissingFlowInformation => 9,
            RuleFailure::ResourceAllocationFailure => 10,
            RuleFailure::UnsuccessfulQosValidation => 11,
            RuleFailure::IncorrectFlowInformation => 12,
            RuleFailure::TdfApplicationIdentifierError => 14,
            RuleFailure::FilterRestrictions => 16,
        }
    }
}

/// What a refusal of a session is for the PCRF.
pub fn failure_of(refusal: Refusal) -> RuleFailure
    ensures { result ≡ failure_of refusal }
{
    match refusal {
        Refusal::UnknownRule => RuleFailure::UnknownRuleName,
        Refusal::UnknownBearer | Refusal::DefaultBearer => RuleFailure::UnknownBearerId,
        Refusal::RulesFull | Refusal::KeysFull | Refusal::CommandsFull => {
            RuleFailure::ResourcesLimitation
        }
        Refusal::UnknownQci | Refusal::RatesMissing | Refusal::RatesNotWanted => {
            RuleFailure::UnsuccessfulQosValidation
        }
        Refusal::TooManyBearers => RuleFailure::MaxNrBearersReached,
        Refusal::OverCapacityUp | Refusal::OverCapacityDown | Refusal::PoolUp | Refusal::PoolDown =>
            RuleFailure::ResourceAllocationFailure,
        Refusal::Terminated
        | Refusal::Closed
        | Refusal::NameIsPredefined
        | Refusal::UnknownKey
        | Refusal::ZeroGrant
        | Refusal::WorkersAttached(_)
        | Refusal::LevelClash
        | Refusal::NoMemory => RuleFailure::GatewayMalfunction,
    }
}
