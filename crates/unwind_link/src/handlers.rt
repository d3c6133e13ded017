//! The functions that handle exceptions, to which kept unwind entries lead.
ghost use Rattle.std.specs.Prelude.{◌≡◌, ◌↔◌, ◌<◌, ◌∷◌, [], IfOk, IsTrue, Contains, map, length};
ghost use Rattle.resolve.specs.Table.{goals_of};
ghost use Rattle.slot_plan.specs.Slots.{AreSlots};
ghost use Rattle.unwind_link.specs.Personalities as spec;
ghost use Rattle.unwind_link.specs.inner.Adds.{Adds};

use crate::goals::goal_at;
use crate::kept::{KeptUnwind, KeptUnwinds};
use mo_types::{Goal, OutOfMemory};
use resolve::GoalTable;
use slot_plan::{Need, NeedList, SlotList, Slots, Way, slots};
use std::alloc::Global;
use symbol_winners::SymbolTable;

/// An encoding has two bits for the number of its personality, from 1.
const MOST_PERSONALITIES: usize = 3;

// Whether the last of some goals is another one.
fn is_last(goals: &[Goal], goal: &Goal) -> bool
    ensures { IsTrue result → Contains goals.now goal.now }
{
    match goals.get(goals.len().wrapping_sub(1)) {
        Some(last) => last.is_same(goal),
        None => false,
    }
}

// Goals, with one more. Entries of one personality mostly stand together, so that it is there already.
#[tactic(auto, using(crate::proofs::NeedLemmas::adds))]
fn with_goal(before: Vec<Goal>, goal: Goal) -> Result<Vec<Goal>, OutOfMemory>
    ensures { IfOk result (λ new. Adds before.items (goal ∷ []) new.items) }
{
    if is_last(before.as_slice(), &goal) {
        return Ok(before);
    }
    let mut goals = before;
    goals.push(goal)?;
    Ok(goals)
}

// Goals, with that of an entry's personality.
#[tactic(auto, using(crate::proofs::NeedLemmas::one))]
fn with_entry(
    before: Vec<Goal>,
    symbols: &SymbolTable,
    goals: &GoalTable,
    kept: &KeptUnwind,
) -> Result<Vec<Goal>, OutOfMemory>
    ensures { IfOk result (λ new. Adds before.items (spec.personality_goals symbols.now.literals (goals_of goals.now) (kept.now ∷ [])) new.items) }
{
    match &kept.unwind.personality {
        Some(target) => {
            let goal = goal_at(symbols, goals, kept.file, target)?;
            with_goal(before, goal)
        }
        None => Ok(before),
    }
}

// The goals of the personalities of entries, each at least once.
#[tactic(auto, using(crate::proofs::NeedLemmas::entries))]
fn goals_among(
    alloc: Global,
    symbols: &SymbolTable,
    goals: &GoalTable,
    kept: &[KeptUnwind],
) -> Result<Vec<Goal>, OutOfMemory>
    ensures { IfOk result (λ new. Adds [] (spec.personality_goals symbols.now.literals (goals_of goals.now) kept.now) new.items) }
{
    let mut found = Vec::new(alloc);
    for one in kept {
        found = with_entry(found, symbols, goals, one)?;
    }
    Ok(found)
}

// The slots of the global offset table that some goals need.
#[tactic(auto, using(crate::proofs::NeedLemmas::slots_of))]
fn needs_of(alloc: Global, goals: &[Goal]) -> Result<NeedList, OutOfMemory>
    ensures { IfOk result (λ needs. needs ≡ map spec.slot_need goals.now) }
{
    let mut needs = NeedList::new(alloc);
    for goal in goals {
        needs.push(Need {
            goal: goal.clone()?,
            way: Way::Got,
        })?;
    }
    Ok(needs)
}

/// The goals of the personalities of kept entries, each once, in the order of their slots. An encoding has the number of its
/// personality in this order, from 1 (`compact_unwind_encoding.h`: UNWIND_PERSONALITY_MASK).
#[tactic(auto, using(crate::proofs::NeedLemmas::alls))]
pub fn personalities(
    alloc: Global,
    symbols: &SymbolTable,
    goals: &GoalTable,
    kept: &KeptUnwinds,
) -> Result<SlotList, OutOfMemory>
    ensures { IfOk result (AreSlots (spec.personality_goals symbols.now.literals (goals_of goals.now) kept.now)) }
{
    let found = goals_among(alloc, symbols, goals, kept.as_slice())?;
    let needs = needs_of(alloc, found.as_slice())?;
    let Slots { got, .. } = slots(alloc, &needs)?;
    Ok(got)
}

/// Whether there are more personalities than an encoding has numbers for, which are three. Takes no memory.
pub fn many_personalities(personalities: &SlotList) -> bool
    ensures { IsTrue result ↔ (spec.most_personalities < length personalities.now) }
{
    personalities.len() > MOST_PERSONALITIES
}

/// The slots of the global offset table that personalities need, one for each.
pub fn personality_needs(alloc: Global, personalities: &SlotList) -> Result<NeedList, OutOfMemory>
    ensures { IfOk result (λ needs. needs ≡ map spec.slot_need personalities.now) }
{
    needs_of(alloc, personalities.as_slice())
}
