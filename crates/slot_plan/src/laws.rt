//! What the definitions mean, each on a call that does nothing.
ghost use Rattle.std.specs.Prelude.{◌≡◌, ◌≢◌, List, Contains};
ghost use Rattle.std.specs.List.{AllPairs};
ghost use Rattle.std.specs.Cmp.{IsTotalOrder};
ghost use Rattle.std.specs.declared.cmp.Ordering.TheVariants.{Equal};
ghost use Rattle.mo_types.specs.Goals.{compare_goals};
ghost use Rattle.mo_types.specs.declared.goal.Goal.{Goal};
ghost use Rattle.slot_plan.specs.declared.need.Need.{Need};
ghost use Rattle.slot_plan.specs.Slots.{AreSlots, needed, in_got, in_stubs};

/// The order of goals is a total one, in which no two different goals tie.
#[tactic(auto, using(crate::proofs::Ordered::order_laws))]
pub fn goals_are_in_order()
    ensures total { IsTotalOrder compare_goals }
    ensures ties { (a b : Goal) → compare_goals a b ≡ Equal → a ≡ b }
{}

/// No goal has two slots in a list.
#[tactic(auto, using(crate::proofs::Ordered::stands_once))]
pub fn a_goal_stands_once()
    ensures { (goals slots : List Goal) → AreSlots goals slots → AllPairs (λ a b. a ≢ b) slots }
{}

/// The slots of some goals are one list.
pub fn slots_are_one_list()
    ensures { (goals slots other : List Goal) → AreSlots goals slots → AreSlots goals other → slots ≡ other }
{}

/// What has a stub has a slot in the global offset table too, which the stub loads.
pub fn stubs_have_slots()
    ensures { (needs : List Need) (got stubs : List Goal) → AreSlots (needed in_got needs) got → AreSlots (needed in_stubs needs) stubs
        → (goal : Goal) → Contains stubs goal → Contains got goal }
{}
