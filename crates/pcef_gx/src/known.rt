//! Which AVPs are known.

ghost use Rattle.std.specs.Prelude.{◌≡◌};
ghost use Rattle.pcef_gx.specs.Known.{is_known, is_one_of};

use crate::code::{Code, THREE_GPP};

/// The AVPs of the IETF that a Gx message may have: RFC 6733's base, RFC 8506's and those of RFC 4005 in a CCR.
const OF_IETF: &[u32] = &[
    1, 4, 5, 8, 25, 27, 30, 31, 33, 44, 55, 97, 257, 258, 259, 260, 261, 262, 263, 264, 265, 266,
    267, 268, 269, 270, 271, 272, 273, 274, 276, 277, 278, 279, 280, 281, 282, 283, 284, 285, 287,
    291, 292, 293, 294, 295, 296, 297, 298, 299, 412, 414, 415, 416, 417, 418, 420, 421, 431, 432,
    439, 443, 444, 446, 450, 452, 454, 458, 459, 460, 461,
];

/// Those of 3GPP.
const OF_3GPP: &[u32] = &[
    6, 13, 15, 18, 20, 21, 22, 23, 505, 507, 509, 510, 511, 515, 516, 517, 518, 531, 532, 536, 554,
    555, 618, 628, 629, 630, 881, 1000, 1001, 1002, 1003, 1004, 1005, 1006, 1007, 1008, 1009, 1010,
    1011, 1012, 1013, 1014, 1015, 1016, 1018, 1019, 1020, 1021, 1022, 1023, 1024, 1025, 1026, 1027,
    1028, 1029, 1030, 1031, 1032, 1033, 1034, 1040, 1041, 1042, 1043, 1044, 1045, 1046, 1047, 1048,
    1049, 1050, 1056, 1057, 1058, 1059, 1060, 1061, 1062, 1063, 1065, 1066, 1067, 1068, 1069, 1070,
    1071, 1072, 1080, 1082, 1085, 1086, 1088, 1099, 2809, 2844, 2848, 2849, 2850, 2851,
];

/// Whether a number is among these.
pub(crate) fn is_one_of(numbers: &[u32], number: u32) -> bool
    ensures { result ≡ is_one_of numbers.now number }
{
    numbers.iter().any(|other| *other == number)
}

/// Whether an AVP of this code is known. A mandatory one that isn't refuses its message (RFC 6733, clause 4.1). Takes no
/// memory.
#[tactic(auto, unfolding(crate::specs::Known::is_known))]
pub fn is_known(code: Code) -> bool
    ensures { result ≡ is_known code }
{
    if code.vendor == 0 {
        is_one_of(OF_IETF, code.number)
    } else {
        code.vendor == THREE_GPP && is_one_of(OF_3GPP, code.number)
    }
}
