//! The state of the handles over Gx that another language holds: `GxHandle`, the dialogue of one session with its PCRF
//! (TS 29.212), and the calls on it. The session lies in a handle of its own, as one without Gx does: it opens there when
//! the PCRF has granted it, and its workers are that handle's. There is no pointer here.
//!
//! Its contracts say: what each message does to the dialogue and to the session, which CCR is due, and what it tells,
//! octet for octet.
//!
//! In the order of reading: `held`, `proposing`, `opening`, `beside`, `hearing`, `granting`,
//! `telling`, `ending`, `renewing`.
#![tactic(auto)]

mod beside;
mod ending;
mod granting;
mod hearing;
mod held;
mod opening;
mod proposing;
mod renewing;
mod telling;

pub use ending::{EndRefusal, NoticeRefusal, notice};
pub use hearing::{HearRefusal, Heard};
pub use held::{Dialogue, GxHandle, Stage};
pub use opening::{BeginRefusal, MAX_OTHERS};
pub use renewing::GoOnRefusal;
pub use telling::NextRefusal;
