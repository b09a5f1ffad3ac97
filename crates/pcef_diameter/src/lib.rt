//! Diameter messages as octets (RFC 6733, clauses 3 and 4): reads and writes headers and AVPs; knows no application.
//!
//! Its contracts say: a header, exactly the AVPs of some octets, or the first fault; octets have one reading; what was
//! written is read again, and nothing else is read.
//!
//! In the order of reading: `fault`, `number`, `header`, `avp`, `avps`, `writing`, `laws`.
#![tactic(auto)]

mod avp;
mod avps;
mod fault;
mod header;
mod laws;
mod number;
mod writing;

pub use avp::{Avp, read_avp};
pub use avps::{Avps, read_avps};
pub use fault::{AvpFault, MessageFault};
pub use header::{HEADER_LEN, MessageHeader, read_message_header};
pub use laws::{nothing_else_is_read, one_reading, what_is_written_is_read};
pub use number::{read_unsigned32, read_unsigned64, word_at};
pub use writing::{put_avp, put_header};
