//! Where the targets of a file's unwind entries lead.
ghost use Rattle.std.specs.Prelude.{◌≡◌, [], IfOk};
ghost use Rattle.resolve.specs.Goals.{target_goal};
ghost use Rattle.resolve.specs.Table.{goals_of};
ghost use Rattle.unwind_link.specs.Goals as spec;

use mo_types::{Goal, OutOfMemory, Target};
use resolve::{GoalTable, goal_of};
use symbol_winners::SymbolTable;

// The goal of a target of a file whose symbols have no goals.
fn goal_alone(symbols: &SymbolTable, target: &Target) -> Goal
    ensures { result ≡ target_goal symbols.now.literals [] target.now }
{
    match *target {
        Target::Name(_) => Goal::Nobody,
        Target::Local(atom, offset) => Goal::Def(symbols.representative(atom), offset),
    }
}

/// Where a target of the file at a place leads.
#[tactic(auto, using(crate::proofs::GoalLemmas::tables))]
pub(crate) fn goal_at(
    symbols: &SymbolTable,
    goals: &GoalTable,
    file: usize,
    target: &Target,
) -> Result<Goal, OutOfMemory>
    ensures { IfOk result (λ goal. goal ≡ spec.goal_at symbols.now.literals (goals_of goals.now) file target.now) }
{
    match goals.file(file) {
        Some(some) => goal_of(symbols, &some, target),
        None => Ok(goal_alone(symbols, target)),
    }
}
