ghost use Rattle.std.specs.Prelude.{◌≡◌, Contains, IfOk};
ghost use Rattle.std.specs.List.Sorted.{IsSorted, IsStrictlySortedBy};
ghost use Rattle.std.specs.Ordering.{on};
ghost use Rattle.mo_types.specs.Goals.{compare_goals};
ghost use Rattle.mo_types.specs.declared.goal.Goal.{Goal};
ghost use Rattle.slot_plan.specs.Slots.{AreSlots, needed, in_got, in_stubs, in_tlv};
ghost use Rattle.slot_plan.specs.inner.Held.{HasTheSame, goal_behind, held, held_needs, serves};

use crate::few::few;
use crate::list::{SlotList, Slots};
use crate::need::{Need, NeedList, Way};
use crate::order::compare;
use crate::rough::roughly_in_order;
use mo_types::{Goal, OutOfMemory};
use std::alloc::Global;

/// The slots that some needs ask for: in each list each goal that is needed so once, and no other.
pub fn slots(alloc: Global, needs: &NeedList) -> Result<Slots, OutOfMemory>
    ensures got { IfOk result (λ slots. AreSlots (needed in_got needs.now) slots.got) }
    ensures stubs { IfOk result (λ slots. AreSlots (needed in_stubs needs.now) slots.stubs) }
    ensures tlv { IfOk result (λ slots. AreSlots (needed in_tlv needs.now) slots.tlv) }
{
    let needs = in_order(alloc, needs.as_slice())?;
    let needs = needs.as_slice();
    Ok(Slots {
        got: slots_of(alloc, needs, Table::Got)?,
        stubs: slots_of(alloc, needs, Table::Stubs)?,
        tlv: slots_of(alloc, needs, Table::Tlv)?,
    })
}

// The sections of slots.
#[derive(Clone, Copy)]
pub(crate) enum Table {
    Got,
    Stubs,
    Tlv,
}

impl Table {
    // Whether a goal that is needed so has a slot in it. A stub loads its goal from the global offset table.
    fn serves(self, way: Way) -> bool
        ensures { result ≡ serves self way }
    {
        match (self, way) {
            (Table::Got, Way::Got | Way::Stub) => true,
            (Table::Stubs, Way::Stub) => true,
            (Table::Tlv, Way::Tlv) => true,
            _ => false,
        }
    }
}

// The needs, mostly once each, in the order of their goals. The sort finds most of them in order.
fn in_order(alloc: Global, needs: &[Need]) -> Result<Vec<&Need>, OutOfMemory>
    ensures same { IfOk result (λ few. HasTheSame needs.now (held_needs few.items)) }
    ensures sorted { IfOk result (λ few. IsSorted (on goal_behind compare_goals) few.items) }
{
    let few = few(alloc, needs)?;
    let mut sorted = roughly_in_order(alloc, few.as_slice())?;
    sorted.sort_by(|a, b| compare(&a.goal, &b.goal))?;
    Ok(sorted)
}

// The slots of one section.
fn slots_of(alloc: Global, needs: &[&Need], table: Table) -> Result<SlotList, OutOfMemory>
    requires { IsSorted (on goal_behind compare_goals) needs.now }
    ensures { IfOk result (AreSlots (needed (serves table) (held_needs needs.now))) }
{
    let mut goals = served(alloc, needs, table)?;
    leave_once(&mut goals);
    Ok(SlotList::from_sorted(copies(alloc, goals.as_slice())?))
}

// The goals that have a slot in a section, as often as they are needed, in the order of the needs.
fn served<'a>(alloc: Global, needs: &[&'a Need], table: Table) -> Result<Vec<&'a Goal>, OutOfMemory>
    ensures { IfOk result (λ goals. held goals.items ≡ needed (serves table) (held_needs needs.now)) }
{
    let mut goals = Vec::new(alloc);
    for need in needs {
        if table.serves(need.way) {
            goals.push(&need.goal)?;
        }
    }
    Ok(goals)
}

// Leaves each goal once, of goals in order.
fn leave_once(goals: &mut Vec<&Goal>)
    requires { IsSorted compare_goals (held goals.old.items) }
    ensures { AreSlots (held goals.old.items) (held goals.new.items) }
{
    goals.dedup();
}

// Copies of goals.
fn copies(alloc: Global, goals: &[&Goal]) -> Result<Vec<Goal>, OutOfMemory>
    ensures { IfOk result (λ copies. copies.items ≡ held goals.now) }
{
    let mut copies = Vec::with_capacity(alloc, goals.len())?;
    for goal in goals {
        copies.push((*goal).clone()?)?;
    }
    Ok(copies)
}
