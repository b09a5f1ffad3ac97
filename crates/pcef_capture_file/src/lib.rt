//! Reads captures, whole or in parts: the frames that were recorded and their times, and the packets of IPv4 and IPv6
//! in them.
//!
//! Its contracts say: exactly the packets of a capture, up to its end or first fault; what a frame is for a session.
//!
//! In the order of reading: `direction`, `endianness`, `fault`, `laws`, `link`, `padding`, `stop`, `time`, `packet`,
//! `classic`, `frame`, `content`, `blocks`, `options`, `section`, `block_packet`, `pcapng`, `capture`, `stream`.
#![tactic(auto)]

mod block_packet;
mod blocks;
mod capture;
mod classic;
mod content;
mod direction;
mod endianness;
mod fault;
mod frame;
mod laws;
mod link;
mod options;
mod packet;
mod padding;
mod pcapng;
mod section;
mod stop;
mod stream;
mod time;

pub use capture::read_capture;
pub use classic::{FileHeader, TimeScale, read_classic, read_file_header, read_record};
pub use content::{Content, content_of};
pub use direction::direction_of;
pub use endianness::Endianness;
pub use fault::CaptureFault;
pub use frame::ip_of;
pub use laws::{one_capture, one_reading};
pub use link::Link;
pub use packet::{Capture, Packet};
pub use padding::padded;
pub use pcapng::read_pcapng;
pub use stop::Stop;
pub use stream::CaptureStream;
pub use time::Time;
