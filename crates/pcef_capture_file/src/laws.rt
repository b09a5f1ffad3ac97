//! Laws of the definitions, proved for whoever reads them.

ghost use Rattle.pcef_capture_file.specs.Laws.{OneCapture, OneReading};

/// The records of a classic file have one list of packets, and one fault or none behind them.
pub fn one_reading()
    ensures { OneReading }
{}

/// A capture file in either format has one list of packets, and one fault or none behind them.
pub fn one_capture()
    ensures { OneCapture }
{}
