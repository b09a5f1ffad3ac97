//! The refusals and faults in the page.

use crate::names::ByName;
use crate::rules::{MOST_ROWS, push_more};
use crate::sheet::Sheet;
use crate::{Figures, Refused};
use std::alloc::{AllocError, Global};

/// The front of the table.
const REFUSALS: &str =
    "<div class=\"wide\"><table><tr><th>Name</th><th class=\"text\">Kind</th><th>Number</th><th>Lines</th>\
<th>First line</th><th>Last line</th></tr>\n";

/// Equal refusals.
struct Group<'a> {
    /// The first of them.
    first: &'a Refused,
    /// The line of the last.
    last: u64,
    /// How many there are.
    count: u64,
}

// Written out, so that an owner proves one call on each return path.
impl Drop for Group<'_> {
    fn drop(self) {
        let Group {
            first: _,
            last: _,
            count: _,
        } = self;
    }
}

/// Adds a row of the table.
fn push_row(page: &mut Sheet, group: &Group<'_>) {
    page.raw("<tr><td>");
    page.text(group.first.name.as_str());
    page.raw("</td><td class=\"text\">");
    page.raw(if group.first.is_fault {
        "fault"
    } else {
        "refused"
    });
    for number in &[
        group.first.number,
        group.count,
        group.first.line,
        group.last,
    ] {
        page.raw("</td><td>");
        page.count(*number);
    }
    page.raw("</td></tr>\n");
}

/// What equal refusals share: whether it is a fault, its number and its name.
type Kind<'a> = (bool, u64, &'a str);

/// The refusals and faults, equal ones together, in the order in which they first come.
fn groups_of<'a>(
    alloc: Global,
    figures: &'a Figures,
) -> Result<ByName<Kind<'a>, Group<'a>>, AllocError> {
    let mut groups = ByName::new(alloc);
    for refused in &figures.refused {
        let kind = (refused.is_fault, refused.number, refused.name.as_str());
        groups.begin(
            kind,
            Group {
                first: refused,
                last: refused.line,
                count: 0,
            },
        )?;
        if let Some(group) = groups.get(kind) {
            group.last = refused.line;
            group.count = group.count.saturating_add(1);
        }
    }
    Ok(groups)
}

/// Adds the lines that were refused or at fault, equal ones in one row. Takes memory.
pub(crate) fn push_refused(
    alloc: Global,
    page: &mut Sheet,
    figures: &Figures,
) -> Result<(), AllocError> {
    page.raw("<h2>Refusals and faults</h2>\n");
    if figures.refused.is_empty() {
        page.raw("<p>There are none.</p>\n");
        return Ok(());
    }
    let groups = groups_of(alloc, figures)?;
    let groups = groups.entries();
    page.raw(REFUSALS);
    for (_, group) in groups.iter().take(MOST_ROWS) {
        push_row(page, group);
    }
    page.raw("</table></div>\n");
    push_more(page, groups.len());
    Ok(())
}
