//! The state of the handles that another language holds: `Handle`, a session while one is open, `WorkerHandle`, one of
//! its workers while it is attached, and the calls on them. There is no pointer here.
//!
//! Its contracts say: what each call does to the session, and what is written to a buffer.
//!
//! In the order of reading: `held`, `judging`, `opening`, `text`, `line`, `reporting`, `renewing`, `attached`, `worker`,
//! `counts`, `bearers`, `naming`.
#![tactic(auto)]

mod attached;
mod bearers;
mod counts;
mod held;
mod judging;
mod line;
mod naming;
mod opening;
mod renewing;
mod reporting;
mod text;
mod worker;

pub use attached::{AttachRefusal, AttachedWorker, MeetRefusal, TakeRefusal};
pub use bearers::{BearerRefusal, BearerState};
pub use counts::{KeyUsage, UsageRefusal};
pub use held::{Handle, OpenSession};
pub use judging::JudgeRefusal;
pub use line::CallRefusal;
pub use naming::NameRefusal;
pub use opening::{OpenRefusal, profile_of};
pub use text::copy_front;
pub use worker::{WorkerHandle, handles_are_send};
