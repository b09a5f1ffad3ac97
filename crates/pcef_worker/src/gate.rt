//! Points at which a worker may be held up.

/// A point that a worker reaches. The number is the worker's.
#[derive(Clone, Copy, Debug, PartialEq, Eq)]
pub enum Point {
    /// A flush begins: its rows wait still.
    FlushBegins(u8),
    /// A flush was answered.
    FlushAnswered(u8),
}

/// Is called where a worker reaches a point, with no lock held. By it tests hold a worker up, or count its flushes.
pub trait Gate {
    /// A worker is at this point, and goes on when the call ends.
    fn at(&self, point: Point);
}

/// A gate that holds nobody up.
#[derive(Clone, Copy, Debug, Drop)]
pub struct OpenGate;

impl Gate for OpenGate {
    fn at(&self, _point: Point) {}
}
