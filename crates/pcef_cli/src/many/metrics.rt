//! The totals as metrics, in the text format of Prometheus (version 0.0.4).

use crate::many::totals::Totals;
use std::alloc::{AllocError, Global};

/// Text that is being written.
#[derive(Drop)]
struct Page {
    text: String,
    is_refused: bool,
}

impl Page {
    /// Writes a piece.
    fn raw(&mut self, piece: &str) {
        if !self.is_refused {
            self.is_refused = self.text.push_str(piece).is_err();
        }
    }

    /// Begins a metric.
    fn begin(&mut self, name: &str, kind: &str, help: &str) {
        for piece in &[
            "# HELP ",
            name,
            " ",
            help,
            "\n# TYPE ",
            name,
            " ",
            kind,
            "\n",
        ] {
            self.raw(*piece);
        }
    }

    /// Writes the number of a sample.
    fn number(&mut self, number: u64) {
        if !self.is_refused {
            self.is_refused = write!(self.text, " {number}\n").is_err();
        }
    }

    /// Writes a metric of one sample.
    fn single(&mut self, name: &str, kind: &str, help: &str, number: u64) {
        self.begin(name, kind, help);
        self.raw(name);
        self.number(number);
    }

    /// Writes a sample with a label.
    fn labeled(&mut self, name: &str, label: &str, value: &str, number: u64) {
        for piece in &[name, "{", label, "=\"", value, "\"}"] {
            self.raw(*piece);
        }
        self.number(number);
    }

    fn push_verdicts(&mut self, totals: &Totals) {
        let name = "pcef_packets_total";
        self.begin(name, "counter", "Packets by their verdict.");
        let verdicts = totals.verdicts;
        self.labeled(name, "verdict", "Passed", verdicts.passed);
        self.labeled(name, "verdict", "Gated", verdicts.gated);
        self.labeled(name, "verdict", "Unmatched", verdicts.unmatched);
        self.labeled(name, "verdict", "Stray", verdicts.stray);
    }

    fn push_refused(&mut self, totals: &Totals) {
        let name = "pcef_refused_lines_total";
        self.begin(name, "counter", "Lines that were refused or at fault.");
        for refused in &totals.refused {
            self.labeled(name, "name", refused.name.as_str(), refused.lines);
        }
    }

    fn push_totals(&mut self, totals: &Totals, memory: Option<u64>) {
        let open = totals.open.len() as u64;
        self.single(
            "pcef_open_sessions",
            "gauge",
            "Sessions that are open.",
            open,
        );
        self.single(
            "pcef_lines_total",
            "counter",
            "Lines that were answered.",
            totals.lines,
        );
        self.push_verdicts(totals);
        let octets = "Octets that usage reports have.";
        self.single(
            "pcef_reported_bytes_total",
            "counter",
            octets,
            totals.octets,
        );
        self.push_refused(totals);
        if let Some(memory) = memory {
            let help = "Resident memory size in bytes.";
            self.single("pcef_resident_memory_bytes", "gauge", help, memory);
        }
    }
}

/// The totals as metrics, with the memory of the process where it is known. Takes memory for the text.
pub(crate) fn metrics_text(
    alloc: Global,
    totals: &Totals,
    memory: Option<u64>,
) -> Result<String, AllocError> {
    let mut page = Page {
        text: String::new(alloc),
        is_refused: false,
    };
    page.push_totals(totals, memory);
    let Page { text, is_refused } = page;
    if is_refused {
        Err(AllocError)
    } else {
        Ok(text)
    }
}
