//! Rows that are kept.

ghost use Rattle.std.specs.Prelude.{◌≡◌, ◌≤◌, length, map};
ghost use Rattle.pcef_journaled.specs.Archiving.{rows_added};
ghost use Rattle.pcef_session.specs.Following.{row_of};

use crate::archive::Archive;
use pcef_session::Item;

/// Adds the rows of these items. Takes no memory.
pub(crate) fn add_rows(archive: &mut Archive, items: &[Item])
    requires { length items.now ≤ archive.old.room }
    ensures rows { archive.new.rows ≡ rows_added (map row_of items.now) archive.old.rows }
    ensures keeps { archive.new.keeps ≡ archive.old.keeps }
    ensures commands { archive.new.commands ≡ archive.old.commands }
{
    for item in items {
        archive.add_row(&item.row);
    }
}
