//! Laws of lines, proved for whoever reads the definitions.

ghost use Rattle.pcef_renewal_lines.specs.Lines.{LinesComeAgain, NewSessionsHaveTheirOpen};

/// Right behind its `open` a session has that line alone. Right behind a renewal the lines of the new session are those of
/// the old one: the commands that it took.
pub fn lines_come_again()
    ensures first { NewSessionsHaveTheirOpen }
    ensures again { LinesComeAgain }
{}
