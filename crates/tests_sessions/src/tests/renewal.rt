//! Worked sessions and their renewals. The sessions are given as lines, and the renewals in few words, command by command.

mod answers;
mod lines;
mod lists;
mod steps;
mod worked;
