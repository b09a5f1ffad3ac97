//! Laws of the definitions, proved for whoever reads them.

ghost use Rattle.pcef_gx.specs.Messages.{CcaOf, OneIsDue, RarOf};
ghost use Rattle.pcef_gx.specs.Names.{NamesGoBack};

/// A name is written back as the octets that it came from, so no two octet strings have one name.
pub fn names_go_back()
    ensures { NamesGoBack }
{}

/// The AVPs of a message ask for one thing or have one first fault, and never both.
pub fn one_message()
    ensures request { OneIsDue RarOf }
    ensures answer { OneIsDue CcaOf }
{}
