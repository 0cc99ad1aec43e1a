ghost use Rattle.std.specs.Prelude.{ℕ, List, Option};
ghost use Rattle.turn_types.specs.Journal.{Chains, Lawful, Single};
ghost use Rattle.sid_core.specs.declared.entry.Entry.{Entry};

/// A rule of chains, in meanings alone: what entries make of them. Its five meanings may depend on its value.
pub trait Replay: Copy {
    /// The lists of chains with which a table may start.
    ghost first: { Self → Chains → Type 0 };

    /// What an entry makes of the chains.
    ghost step: { Self → Chains → Entry → Chains };

    /// That this step is legal.
    ghost legal: { Self → Chains → Entry → Type 0 };

    /// The chains that the step names, by rising numbers.
    ghost names: { Self → Chains → Entry → List ℕ };

    /// That the entry may follow these entries of its pass.
    ghost follows: { Self → List Entry → Entry → Type 0 };

    /// The pass that the entry buries.
    ghost buries: { Self → Entry → Option ℕ };

    /// Each of the facts has one proof at most.
    ghost single: { (r : Self) → Single (first r) (legal r) (follows r) };

    /// A legal step depends on the chains that it names alone, and changes them alone.
    ghost law: { (r : Self) → Lawful (first r) (step r) (legal r) (names r) (follows r) };
}
