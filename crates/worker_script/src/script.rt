use sid_core::{Call, Items, Moment, Point, Setup};

/// A call that a script plans: the worker's `number`-th over the whole script, counted from 1.
#[derive(Clone, Copy, Debug, PartialEq, Eq)]
pub struct Planned {
    pub worker: u32,
    pub number: u32,
    pub call: Call,
    /// Where in this call the worker dies.
    pub stop: Option<Point>,
}

/// A phase of a script. All calls of the phase before have ended when it begins.
#[derive(Debug, Drop)]
pub struct Phase {
    pub moment: Moment,
    pub calls: Items<Planned>,
}

/// What a script declares, and what its workers do.
#[derive(Debug, Drop)]
pub struct Script {
    pub setup: Setup,
    pub phases: Items<Phase>,
}
