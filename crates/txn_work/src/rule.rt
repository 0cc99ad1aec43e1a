ghost use Rattle.std.specs.Prelude.{◌≡◌, ◌≤◌, ◌+◌, length, None};
ghost use Rattle.std.proofs.Props.{props};
ghost use Rattle.txn_work.specs.Stamps.{stamped, stamped_chains};
ghost use Rattle.txn_work.specs.Law.{stamping_lawful};

use turn_types::Replay;

/// Each entry gives a record in each of so many chains a value, whatever the entry is.
#[derive(Clone, Copy)]
pub struct Stamping {
    pub count: u32,
}

impl Replay for Stamping {
    ghost first = { λ r k. Unit {0} };

    ghost step = { λ r k e. stamped r.count k };

    ghost legal = { λ r k e. 32 + r.count ≤ length k };

    ghost names = { λ r k e. stamped_chains r.count };

    ghost follows = { λ r js e. Unit {0} };

    ghost buries = { λ r e. None };

    ghost single = { λ r. record { first_is = λ k. Prim.hlevel props; legal_is = λ k e. Prim.hlevel props; follows_is = λ js e. Prim.hlevel props } };

    ghost law = { λ r. stamping_lawful r.count };
}
