//! The page.

use crate::axis::{Axis, bounds};
use crate::keys::push_keys;
use crate::rate_chart::push_rates;
use crate::refusals::push_refused;
use crate::rules::push_rules;
use crate::sheet::Sheet;
use crate::stamps::push_time;
use crate::style::{FRONT, STYLE};
use crate::verdicts::push_verdicts;
use crate::volume::push_volume;
use crate::{Figures, Stamp};
use std::alloc::{AllocError, Global};

/// Whose page it is.
#[derive(Clone, Copy)]
pub struct Subject<'a> {
    /// The address of the session, where it is known.
    pub address: Option<&'a str>,
    /// The path of its profile, where it was given.
    pub profile: Option<&'a str>,
    /// Its name, where there are many.
    pub session: Option<&'a str>,
    /// The path of the script.
    pub lines: &'a str,
    /// The path of its answers.
    pub answers: &'a str,
    /// The times of its packets.
    pub stamps: &'a [Stamp],
}

/// Adds a name of the title, where it is known.
fn push_name(page: &mut Sheet, front: &str, name: Option<&str>) {
    if let Some(name) = name {
        page.raw(front);
        page.text(name);
    }
}

/// Adds the title.
fn push_title(page: &mut Sheet, subject: Subject<'_>) {
    page.raw("Session");
    push_name(page, " ", subject.session);
    push_name(page, " of ", subject.address);
    if subject.session.is_none() && subject.address.is_none() {
        push_name(page, " in ", Some(subject.lines));
    }
}

/// Writes when the first packet came, where packets have times.
fn push_begin(page: &mut Sheet, stamps: &[Stamp]) {
    if stamps.is_empty() {
        return;
    }
    let (begin, _) = bounds(stamps);
    page.raw(". The first packet came ");
    push_time(page, begin);
    page.raw(" seconds after the beginning of 1970, UTC");
}

/// Begins the page.
fn push_head(page: &mut Sheet, subject: Subject<'_>) {
    page.raw(FRONT);
    push_title(page, subject);
    page.raw("</title>");
    page.raw(STYLE);
    page.raw("<h1>");
    push_title(page, subject);
    page.raw("</h1>\n<p class=\"from\">");
    push_name(page, "Profile ", subject.profile);
    push_name(
        page,
        if subject.profile.is_some() {
            ", script "
        } else {
            "Script "
        },
        Some(subject.lines),
    );
    push_name(page, ", answers ", Some(subject.answers));
    push_begin(page, subject.stamps);
    page.raw("</p>\n");
}

/// Adds a count with its name.
fn push_fact(page: &mut Sheet, name: &str, count: u64) {
    page.raw("<div><dt>");
    page.raw(name);
    page.raw("</dt><dd>");
    page.count(count);
    page.raw("</dd></div>");
}

/// Adds the counts of lines, packets, reports and refusals, and the newest generation.
fn push_facts(page: &mut Sheet, figures: &Figures) {
    page.raw("<dl class=\"facts\">");
    push_fact(page, "Lines with an answer", figures.lines);
    push_fact(page, "Packets with a verdict", figures.judged.len() as u64);
    push_fact(page, "Reports of usage", figures.usage.len() as u64);
    push_fact(
        page,
        "Lines refused or at fault",
        figures.refused.len() as u64,
    );
    push_fact(page, "Newest generation", figures.generation);
    page.raw("</dl>\n");
}

fn push_page(
    alloc: Global,
    page: &mut Sheet,
    figures: &Figures,
    subject: Subject<'_>,
) -> Result<(), AllocError> {
    let axis = Axis::of_lines(figures, subject.stamps);
    push_head(page, subject);
    push_facts(page, figures);
    push_verdicts(page, figures, axis);
    push_rules(alloc, page, figures)?;
    push_volume(page, figures, axis);
    push_keys(alloc, page, figures, axis)?;
    push_rates(page, figures);
    push_refused(alloc, page, figures)?;
    page.raw("</body></html>\n");
    Ok(())
}

/// A page of HTML that shows the figures: verdicts, rules, octets, monitoring keys, guaranteed rates, refusals. It has
/// no script and names no other file. Takes memory for it.
pub fn html_page(
    alloc: Global,
    figures: &Figures,
    subject: Subject<'_>,
) -> Result<String, AllocError> {
    let mut page = Sheet::new(alloc);
    push_page(alloc, &mut page, figures, subject)?;
    page.whole()
}
