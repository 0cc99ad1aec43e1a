use sid_core::{Gate, StepKind};

/// Tells a gate the steps of one call.
#[derive(Drop)]
pub(crate) struct Teller<'a, G: Gate> {
    pub(crate) gate: &'a G,
    pub(crate) worker: u32,
    pub(crate) number: u32,
}

impl<G: Gate> Teller<'_, G> {
    pub(crate) fn tell(&self, step: StepKind) {
        self.gate.at(self.worker, self.number, step);
    }
}
