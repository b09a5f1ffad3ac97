//! A session behind a handle, and its workers behind handles of their own, for C. The room at a handle is the caller's;
//! what lies there is this library's.
//! `include/pcef.h` declares these calls, and says what the caller owes.
//!
//! Its contracts say: those of `pcef_handle`, as C sees them, under the caller's obligations.
//!
//! In the order of reading: `numbers`, `judging`, `calls`, `taking`, `meeting`, `working`, `counts`, `bearers`, `names`,
//! `exports`, `worker_exports`, `count_exports`, `gx_port`, `gx_numbers`, `gx_calls`, `gx_exports`.
#![tactic(auto)]

mod bearers;
mod calls;
mod count_exports;
mod counts;
mod exports;
mod gx_calls;
mod gx_exports;
mod gx_numbers;
mod gx_port;
mod judging;
mod meeting;
mod names;
mod numbers;
mod taking;
mod worker_exports;
mod working;
