ghost use Rattle.std.specs.Prelude.{◌≡◌, ◌↔◌, [], length, IsTrue, MatchOption, Contains, slice_get, Some};
ghost use Rattle.std.specs.List.Sorted.{IsStrictlySortedBy};
ghost use Rattle.mo_types.specs.Goals.{compare_goals};

use mo_types::Goal;
use std::marker::Model;

/// The goals of one section of slots, without repeats and in the order of the slots. Contracts see the
/// list of the goals.
#[derive(Debug, Drop)]
pub struct SlotList {
    goals: Vec<Goal>,
}

impl Model for SlotList {
    ghost use Rattle.std.specs.Prelude.{List};
    ghost use Rattle.std.specs.List.Sorted.{IsStrictlySortedBy};
    ghost use Rattle.mo_types.specs.Goals.{compare_goals};
    ghost use Rattle.mo_types.specs.declared.goal.Goal.{Goal};

    ghost Value = { List Goal };

    ghost view = { λ list. list.goals.items };

    ghost invariant = { λ list. IsStrictlySortedBy compare_goals list.goals.items };
}

/// The goals that have slots, in the order of the slots.
#[derive(Debug, Drop)]
pub struct Slots {
    /// In `__got`: references to the global offset table, what stubs load, and personality functions.
    pub got: SlotList,
    /// In `__stubs`.
    pub stubs: SlotList,
    /// In `__thread_ptrs`.
    pub tlv: SlotList,
}

impl SlotList {
    // The list of goals that are in order.
    pub(crate) fn from_sorted(goals: Vec<Goal>) -> SlotList
        requires { IsStrictlySortedBy compare_goals goals.items }
        ensures { result ≡ goals.items }
    {
        SlotList { goals }
    }

    /// All goals, in order.
    pub fn as_slice(&self) -> &[Goal]
        ensures all { result.now ≡ self.now }
        ensures rising { IsStrictlySortedBy compare_goals self.now }
    {
        self.goals.as_slice()
    }

    /// How many slots there are.
    pub fn len(&self) -> usize
        ensures { result ≡ length self.now }
    {
        self.goals.len()
    }

    /// Whether there is no slot.
    pub fn is_empty(&self) -> bool
        ensures { IsTrue result ↔ (self.now ≡ []) }
    {
        self.goals.is_empty()
    }

    /// The number of a goal's slot, counted from 0, or `None` exactly where it has none. Takes no memory.
    pub fn place_of(&self, goal: &Goal) -> Option<usize>
        ensures { MatchOption result (¬ Contains self.now goal.now) (λ at. slice_get self.now at ≡ Some goal.now) }
    {
        find(self.goals.as_slice(), goal)
    }
}

// The place of a goal among goals that are in order.
fn find(goals: &[Goal], goal: &Goal) -> Option<usize>
    requires { IsStrictlySortedBy compare_goals goals.now }
    ensures { MatchOption result (¬ Contains goals.now goal.now) (λ at. slice_get goals.now at ≡ Some goal.now) }
{
    match goals.binary_search(goal) {
        Ok(at) => Some(at),
        Err(_) => None,
    }
}
