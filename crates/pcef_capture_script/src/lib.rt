//! The lines of a script for the packets of a capture, written while it is read, and the options of the program that
//! writes them: `parse_options`, `write_capture`; and the steps of it, for whoever writes other lines.
//!
//! Its contracts say: which lines were written for the packets so far, or a front of them.
//!
//! In the order of reading: `counts`, `end`, `options`, `plan`, `turn`, `takes`, `writing`.
#![tactic(auto)]

mod counts;
mod end;
mod options;
mod plan;
mod takes;
mod turn;
mod writing;

pub use counts::{Counts, Outcome};
pub use end::End;
pub use options::{Options, Packets, Request, Users, command, parse_options};
pub use plan::Plan;
pub use takes::{write_flush_line, write_take_line};
pub use turn::Turn;
pub use writing::{forget, read_front, read_more, write_capture};
