//! Passes of plain cells at work, each by its seat, and what the cells then show of all passes.
ghost use Rattle.std.specs.Prelude.{◌≡◌, ℕ, ◌<◌, ◌+◌, ◌^◌, [], length, IfOk, true, not, Some};
ghost use Rattle.turn_types.specs.Shown.{Nothing, knows_dead};
ghost use Rattle.turn_types.specs.Calls.{Able, HasDied, Asked, Tried};
ghost use Rattle.turn_types.specs.Ends.{Recovered};
ghost use Rattle.turn_types.specs.Beside.{Leaves, Lives, Names, Frees};
ghost use Rattle.dbwrap_core.specs.Plain.{shown_at, beside_of};
ghost use Rattle.tests.specs.Adding.{At, rule_step};

use crate::adding::{Stage, Stuck, add};
use crate::counting::Counting;
use dbwrap_core::{Cells, PlainCells};
use std::alloc::Global;
use turn_types::{Recover, Take};

/// Adds one to a chain and to the next by a pass of plain cells, and ends after so many stages. No other pass shows anything
/// else afterwards, and the journal gained what the pass committed.
pub fn add_by(
    cells: &mut PlainCells<Counting>,
    alloc: Global,
    pass: u32,
    c: u32,
    stages: u32,
) -> Result<Stage, Stuck>
    requires pass { pass < length (beside_of cells.old).passes }
    requires chains { (c + 1 < length (beside_of cells.old).chains) × (length (beside_of cells.old).chains < 2 ^ 32) }
    requires few { length (shown_at cells.old pass).own + 2 < 2 ^ 32 }
    requires idle { Able (shown_at cells.old pass) × ((shown_at cells.old pass).held ≡ []) × ((shown_at cells.old pass).plan ≡ Nothing) }
    ensures chains { length (beside_of cells.new).chains ≡ length (beside_of cells.old).chains }
    ensures shows { Leaves (shown_at cells.old pass) (shown_at cells.new pass) (beside_of cells.old) (beside_of cells.new) }
    ensures at { IfOk result (λ stage. At (shown_at cells.old pass) c stage (shown_at cells.new pass)) }
{
    let mut seat = cells.seat(pass);
    add(&mut seat, alloc, c, stages)
}

/// The pass dies.
pub fn die_by(cells: &mut PlainCells<Counting>, pass: u32)
    requires pass { pass < length (beside_of cells.old).passes }
    requires lives { (shown_at cells.old pass).alive ≡ true }
    ensures chains { length (beside_of cells.new).chains ≡ length (beside_of cells.old).chains }
    ensures shows { Leaves (shown_at cells.old pass) (shown_at cells.new pass) (beside_of cells.old) (beside_of cells.new) }
    ensures died { HasDied (shown_at cells.old pass) (shown_at cells.new pass) }
{
    cells.seat(pass).die();
}

/// Whether another pass is dead, as this one asks.
pub fn ask_by(cells: &mut PlainCells<Counting>, pass: u32, other: u32) -> bool
    requires pass { pass < length (beside_of cells.old).passes }
    requires able { Able (shown_at cells.old pass) }
    requires other { (other < length (shown_at cells.old pass).dead) × (other ≡ (shown_at cells.old pass).number → ⊥) }
    ensures chains { length (beside_of cells.new).chains ≡ length (beside_of cells.old).chains }
    ensures shows { Leaves (shown_at cells.old pass) (shown_at cells.new pass) (beside_of cells.old) (beside_of cells.new) }
    ensures asked { Asked other (shown_at cells.old pass) (shown_at cells.new pass) result }
    ensures told { Lives other (not result) (beside_of cells.old) }
{
    cells.seat(pass).is_dead(other)
}

/// Recovers a pass that this one knows as dead, in so many steps at most.
pub fn recover_by(cells: &mut PlainCells<Counting>, pass: u32, dead: u32, most: u32) -> Recover
    requires pass { pass < length (beside_of cells.old).passes }
    requires able { Able (shown_at cells.old pass) }
    requires dead { knows_dead dead (shown_at cells.old pass) ≡ true }
    ensures chains { length (beside_of cells.new).chains ≡ length (beside_of cells.old).chains }
    ensures shows { Leaves (shown_at cells.old pass) (shown_at cells.new pass) (beside_of cells.old) (beside_of cells.new) }
    ensures recovered { Recovered dead (Some most) (shown_at cells.old pass) (shown_at cells.new pass) result }
    ensures frees { Frees rule_step dead result (beside_of cells.old) (beside_of cells.new) }
{
    cells.seat(pass).recover(dead, Some(most))
}

/// Tries to take a chain.
pub fn take_by(cells: &mut PlainCells<Counting>, pass: u32, c: u32) -> Take
    requires pass { pass < length (beside_of cells.old).passes }
    requires able { Able (shown_at cells.old pass) }
    requires chain { (c < length (beside_of cells.old).chains) × ((shown_at cells.old pass).held ≡ []) }
    ensures chains { length (beside_of cells.new).chains ≡ length (beside_of cells.old).chains }
    ensures shows { Leaves (shown_at cells.old pass) (shown_at cells.new pass) (beside_of cells.old) (beside_of cells.new) }
    ensures tried { Tried c (shown_at cells.old pass) (shown_at cells.new pass) result }
    ensures names { Names result (beside_of cells.old) }
{
    cells.seat(pass).try_take(c)
}
