ghost use Rattle.records_replay.specs.Rule.{IsFirst, IsLegalStep, Follows, step, names, buries};
ghost use Rattle.databases.specs.Law.{lawful, single};

use sid_core::Setup;
use turn_types::Replay;

/// The rule of the seven databases: their chains are packed records, and an entry makes of them what it makes of the table that they
/// stand for.
#[derive(Clone, Copy)]
pub struct BySetup<'s> {
    pub setup: &'s Setup,
}

impl<'s> Replay for BySetup<'s> {
    ghost first = { λ r k. IsFirst r.setup.now k };

    ghost step = { λ r k e. step r.setup.now k e };

    ghost legal = { λ r k e. IsLegalStep r.setup.now k e };

    ghost names = { λ r k e. names r.setup.now k e };

    ghost follows = { λ r before e. Follows before e };

    ghost buries = { λ r e. buries e };

    ghost single = { λ r. single r.setup.now };

    ghost law = { λ r. lawful r.setup.now };
}
