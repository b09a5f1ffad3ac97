//! What is read of a session.

/// The paths of what is read of a session; `-` is standard input.
#[derive(Clone, Copy)]
pub struct Sources<'a> {
    /// The path of the packets' times, where they are read.
    pub times: Option<&'a str>,
    /// The path of the session's profile, where it is read.
    pub profile: Option<&'a str>,
    /// The name of the session, where the lines are those of many.
    pub session: Option<&'a str>,
    /// The path of the script.
    pub lines: &'a str,
    /// The path of its answers.
    pub answers: &'a str,
}
