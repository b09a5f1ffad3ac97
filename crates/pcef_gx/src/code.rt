//! The codes of AVPs.

ghost use Rattle.std.specs.Prelude.{◌≡◌};
ghost use Rattle.pcef_diameter.specs.Avps.{shown};
ghost use Rattle.pcef_gx.specs.Codes.{code_of, has_code};

use pcef_diameter::Avp;

/// The vendor 3GPP.
pub const THREE_GPP: u32 = 10415;

/// The code of an AVP, within the numbers of a vendor.
#[derive(Clone, Copy, Debug, PartialEq, Eq)]
pub struct Code {
    /// The vendor: 0 for the IETF.
    pub vendor: u32,
    /// The number.
    pub number: u32,
}

/// The code of an AVP. The vendor 0 is the IETF, as no vendor is. Takes no memory.
pub fn code_of(avp: &Avp) -> Code
    ensures { result ≡ code_of (shown avp.now) }
{
    Code {
        vendor: avp.vendor.unwrap_or(0),
        number: avp.code,
    }
}

/// Whether an AVP has this code. Takes no memory.
pub fn is(avp: &Avp, code: Code) -> bool
    ensures { result ≡ has_code code (shown avp.now) }
{
    avp.code == code.number && avp.vendor.unwrap_or(0) == code.vendor
}

/// A code of the IETF.
macro_rules! ietf {
    ($number:expr) => {
        Code {
            vendor: 0,
            number: $number,
        }
    };
}

/// A code of 3GPP.
macro_rules! three_gpp {
    ($number:expr) => {
        Code {
            vendor: THREE_GPP,
            number: $number,
        }
    };
}

/// Framed-IP-Address.
pub const FRAMED_IP_ADDRESS: Code = ietf!(8);

/// Framed-IPv6-Prefix.
pub const FRAMED_IPV6_PREFIX: Code = ietf!(97);

/// Session-Id.
pub const SESSION_ID: Code = ietf!(263);

/// Auth-Application-Id.
pub const AUTH_APPLICATION_ID: Code = ietf!(258);

/// Origin-Host.
pub const ORIGIN_HOST: Code = ietf!(264);

/// Origin-Realm.
pub const ORIGIN_REALM: Code = ietf!(296);

/// Destination-Realm.
pub const DESTINATION_REALM: Code = ietf!(283);

/// Destination-Host.
pub const DESTINATION_HOST: Code = ietf!(293);

/// Re-Auth-Request-Type.
pub const RE_AUTH_REQUEST_TYPE: Code = ietf!(285);

/// Result-Code.
pub const RESULT_CODE: Code = ietf!(268);

/// Experimental-Result.
pub const EXPERIMENTAL_RESULT: Code = ietf!(297);

/// Experimental-Result-Code.
pub const EXPERIMENTAL_RESULT_CODE: Code = ietf!(298);

/// Vendor-Id.
pub const VENDOR_ID: Code = ietf!(266);

/// Failed-AVP.
pub const FAILED_AVP: Code = ietf!(279);

/// Proxy-Info.
pub const PROXY_INFO: Code = ietf!(284);

/// Origin-State-Id.
pub const ORIGIN_STATE_ID: Code = ietf!(278);

/// CC-Request-Type.
pub const CC_REQUEST_TYPE: Code = ietf!(416);

/// CC-Request-Number.
pub const CC_REQUEST_NUMBER: Code = ietf!(415);

/// Granted-Service-Unit.
pub const GRANTED_SERVICE_UNIT: Code = ietf!(431);

/// Used-Service-Unit.
pub const USED_SERVICE_UNIT: Code = ietf!(446);

/// CC-Total-Octets.
pub const CC_TOTAL_OCTETS: Code = ietf!(421);

/// Flow-Description.
pub const FLOW_DESCRIPTION: Code = three_gpp!(507);

/// Flow-Status.
pub const FLOW_STATUS: Code = three_gpp!(511);

/// Max-Requested-Bandwidth-DL.
pub const MAX_REQUESTED_BANDWIDTH_DL: Code = three_gpp!(515);

/// Max-Requested-Bandwidth-UL.
pub const MAX_REQUESTED_BANDWIDTH_UL: Code = three_gpp!(516);

/// Charging-Rule-Install.
pub const CHARGING_RULE_INSTALL: Code = three_gpp!(1001);

/// Charging-Rule-Remove.
pub const CHARGING_RULE_REMOVE: Code = three_gpp!(1002);

/// Charging-Rule-Definition.
pub const CHARGING_RULE_DEFINITION: Code = three_gpp!(1003);

/// Charging-Rule-Base-Name.
pub const CHARGING_RULE_BASE_NAME: Code = three_gpp!(1004);

/// Charging-Rule-Name.
pub const CHARGING_RULE_NAME: Code = three_gpp!(1005);

/// Event-Trigger.
pub const EVENT_TRIGGER: Code = three_gpp!(1006);

/// Online.
pub const ONLINE: Code = three_gpp!(1009);

/// Precedence.
pub const PRECEDENCE: Code = three_gpp!(1010);

/// ToS-Traffic-Class.
pub const TOS_TRAFFIC_CLASS: Code = three_gpp!(1014);

/// QoS-Information.
pub const QOS_INFORMATION: Code = three_gpp!(1016);

/// Charging-Rule-Report.
pub const CHARGING_RULE_REPORT: Code = three_gpp!(1018);

/// PCC-Rule-Status.
pub const PCC_RULE_STATUS: Code = three_gpp!(1019);

/// Bearer-Identifier.
pub const BEARER_IDENTIFIER: Code = three_gpp!(1020);

/// Guaranteed-Bitrate-DL.
pub const GUARANTEED_BITRATE_DL: Code = three_gpp!(1025);

/// Guaranteed-Bitrate-UL.
pub const GUARANTEED_BITRATE_UL: Code = three_gpp!(1026);

/// IP-CAN-Type.
pub const IP_CAN_TYPE: Code = three_gpp!(1027);

/// QoS-Class-Identifier.
pub const QOS_CLASS_IDENTIFIER: Code = three_gpp!(1028);

/// Rule-Failure-Code.
pub const RULE_FAILURE_CODE: Code = three_gpp!(1031);

/// Allocation-Retention-Priority.
pub const ALLOCATION_RETENTION_PRIORITY: Code = three_gpp!(1034);

/// Rule-Activation-Time.
pub const RULE_ACTIVATION_TIME: Code = three_gpp!(1043);

/// Rule-Deactivation-Time.
pub const RULE_DEACTIVATION_TIME: Code = three_gpp!(1044);

/// Session-Release-Cause.
pub const SESSION_RELEASE_CAUSE: Code = three_gpp!(1045);

/// Priority-Level.
pub const PRIORITY_LEVEL: Code = three_gpp!(1046);

/// Pre-emption-Capability.
pub const PRE_EMPTION_CAPABILITY: Code = three_gpp!(1047);

/// Pre-emption-Vulnerability.
pub const PRE_EMPTION_VULNERABILITY: Code = three_gpp!(1048);

/// Default-EPS-Bearer-QoS.
pub const DEFAULT_EPS_BEARER_QOS: Code = three_gpp!(1049);

/// Security-Parameter-Index.
pub const SECURITY_PARAMETER_INDEX: Code = three_gpp!(1056);

/// Flow-Label.
pub const FLOW_LABEL: Code = three_gpp!(1057);

/// Flow-Information.
pub const FLOW_INFORMATION: Code = three_gpp!(1058);

/// Monitoring-Key.
pub const MONITORING_KEY: Code = three_gpp!(1066);

/// Usage-Monitoring-Information.
pub const USAGE_MONITORING_INFORMATION: Code = three_gpp!(1067);

/// Usage-Monitoring-Level.
pub const USAGE_MONITORING_LEVEL: Code = three_gpp!(1068);

/// Usage-Monitoring-Report.
pub const USAGE_MONITORING_REPORT: Code = three_gpp!(1069);

/// Usage-Monitoring-Support.
pub const USAGE_MONITORING_SUPPORT: Code = three_gpp!(1070);

/// Flow-Direction.
pub const FLOW_DIRECTION: Code = three_gpp!(1080);

/// Redirect-Information.
pub const REDIRECT_INFORMATION: Code = three_gpp!(1085);

/// TDF-Application-Identifier.
pub const TDF_APPLICATION_IDENTIFIER: Code = three_gpp!(1088);

/// Extended-GBR-DL.
pub const EXTENDED_GBR_DL: Code = three_gpp!(2850);

/// Extended-GBR-UL.
pub const EXTENDED_GBR_UL: Code = three_gpp!(2851);
