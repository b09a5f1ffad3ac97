//! Laws of the definitions, proved for whoever reads them.

ghost use Rattle.pcef_diameter.specs.Laws.{AvpsAgain, HeaderAgain, NoOtherHeader, NothingElse, NothingElseWithZeros, OneReading};

/// Octets have one list of AVPs, and one fault or none behind them.
pub fn one_reading()
    ensures { OneReading }
{}

/// What was written is read again: AVPs, and a header.
pub fn what_is_written_is_read()
    ensures avps { AvpsAgain }
    ensures header { HeaderAgain }
{}

/// Nothing but what would be written is read, apart from padding, whatever it holds, and the reserved bits of a header.
pub fn nothing_else_is_read()
    ensures avps { NothingElse }
    ensures zeros { NothingElseWithZeros }
    ensures header { NoOtherHeader }
{}
