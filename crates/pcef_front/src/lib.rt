//! Reads the header of a packet of which only the length and the first octets are known: `read_front`.
//!
//! Its contracts say: what every packet that begins with these octets is read as, or that two such packets are read
//! differently. `read_plain` reads most packets that are whole at hand, in few instructions.
//!
//! In the order of reading: `fault`, `laws`, `cutting`, `ports`, `ipv4`, `extensions`, `ipv6`, `reading`, `plain`.
#![tactic(auto)]

mod cutting;
mod extensions;
mod fault;
mod ipv4;
mod ipv6;
mod laws;
mod plain;
mod ports;
mod reading;

pub use fault::FrontFault;
pub use laws::one_answer;
pub use plain::read_plain;
pub use reading::read_front;
