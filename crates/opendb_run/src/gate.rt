use sid_core::{Gate, StepKind};

/// The gate of the program: it does nothing.
#[derive(Clone, Copy, Debug, PartialEq, Eq)]
pub struct Open;

impl Gate for Open {
    fn at(&self, _worker: u32, _number: u32, _step: StepKind) {}
}
