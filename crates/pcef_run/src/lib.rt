//! The program `pcef` without the process that it runs in: `run_program`; `words`, what its arguments ask for;
//! `shown_by`, whether they ask for help or the version; `end`, how it ends. It runs a script, a session over workers in
//! threads, or sessions on a pool in one thread, these two on lines that are all read beforehand: `read_plan`,
//! `run_plan`, `summary_text` and `Storing`, a reporter that stores what it takes; `Pooled`, several sessions on one pool
//! of guaranteed rates, without threads and without a lock, `read_orders` and `run_pool`.
//!
//! Its contracts say: the plan that an input asks for, the outcome of its run, and the text of the summary; what a
//! command on a session of a pool answers in the room that the others leave, that the others stay, and that what is
//! granted is the sum over them; the orders of an input for such sessions, and what is written for their answers; what
//! the words of a call ask for, its outcome, and the table of its ends.
//!
//! In the order of reading: `unfit`, `explaining`, `fault`, `taken`, `input`, `plan`, `reading`, `obeying`, `run`,
//! `summary`; for sessions on a pool `pooled_fault`, `member`, `opening`, `pooled`, `pool_end`, `order`, `orders`,
//! `answering`, `pool_run`; and the whole program: `environment`, `end`, `words`, `shown`, `mistake`, `plan_run`,
//! `pool_call`, `reporting`, `program`.
#![tactic(auto)]

mod answering;
pub mod end;
mod environment;
mod explaining;
mod fault;
mod input;
mod member;
mod mistake;
mod obeying;
mod opening;
mod order;
mod orders;
mod plan;
mod plan_run;
mod pool_call;
mod pool_end;
mod pool_run;
mod pooled;
mod pooled_fault;
mod program;
mod reading;
mod reporting;
mod run;
mod shown;
mod summary;
mod taken;
mod unfit;
pub mod words;

pub use environment::{Arguments, Environment, Host};
pub use fault::{PlanFault, RunEnd};
pub use order::Order;
pub use orders::read_orders;
pub use plan::Plan;
pub use pool_end::PoolEnd;
pub use pool_run::run_pool;
pub use pooled::Pooled;
pub use pooled_fault::PooledFault;
pub use program::run_program;
pub use reading::read_plan;
pub use run::{Ran, run_plan};
pub use shown::{Shown, shown_by};
pub use summary::summary_text;
pub use taken::{Counts, Storing, Taken};
pub use unfit::{FirstUnfit, Unfit, Untaken};
