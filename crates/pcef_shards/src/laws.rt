//! What follows from the definitions.

ghost use Rattle.pcef_shards.specs.Sharing.{LinesHaveThreads, NamesHaveThreads, OthersHaveNone, PartsHaveTheirLines};

/// Whatever the keys, all lines of a name go to one thread, in their order, and no other thread is led one.
pub fn names_have_threads()
    ensures own { NamesHaveThreads }
    ensures others { OthersHaveNone }
{}

/// Whatever the keys, each line is in the part of one thread and in no other, also a line without a name.
pub fn lines_have_threads()
    ensures threads { LinesHaveThreads }
    ensures parts { PartsHaveTheirLines }
{}
