//! Tests of Diameter and of Gx: messages that another program wrote, with what tshark says of them and what each asks of
//! a session; rules that definitions make; what is written, as octets; what a node does for itself; and the dialogue:
//! RARs, CCRs and CCAs that are played on a session, with each of their octets changed, and with each allocation refused.
//! They stand above the crates that they test, which are then proved once.
#![tactic(auto)]

#[cfg(test)]
mod tests;
