//! A gate that its owner lends.

use pcef_worker::{Gate, Point};

/// A gate that is lent to a worker.
#[derive(Drop)]
pub(crate) struct GateRef<'a, G: Gate> {
    gate: &'a G,
}

impl<'a, G: Gate> GateRef<'a, G> {
    pub(crate) fn new(gate: &'a G) -> GateRef<'a, G> {
        GateRef { gate }
    }
}

impl<G: Gate> Gate for GateRef<'_, G> {
    fn at(&self, point: Point) {
        self.gate.at(point)
    }
}
