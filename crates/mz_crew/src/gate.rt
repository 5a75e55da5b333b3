//! Gates, at which a worker stops between its steps.

/// Where a worker stands.
#[derive(Clone, Copy, Debug, PartialEq, Eq)]
pub enum Point {
    /// Before it looks at the unit of its draw.
    Look,
    /// Before it judges the draw by what it read.
    Judge,
    /// Before it commits what it judged.
    Commit,
    /// Behind a commit that decided its draw.
    Decided,
    /// Behind a commit whose reading was overtaken.
    Overtaken,
}

/// What workers pass between their steps. A worker at a gate holds up no other one's commits. A gate may count
/// them, or hold them for a while.
pub trait Gate {
    /// The worker of the seat passes the point.
    fn pass(&self, seat: u8, point: Point);
}

/// A gate that does nothing.
#[derive(Clone, Copy, Debug)]
pub struct OpenGate;

impl Gate for OpenGate {
    fn pass(&self, _seat: u8, _point: Point) {}
}
