//! What needs that are answered mean for the slots that are made of them, on a call that does nothing.
ghost use Rattle.std.specs.Prelude.{Bool, List};
ghost use Rattle.mo_types.specs.declared.goal.Goal.{Goal};
ghost use Rattle.slot_plan.specs.Slots.{AreSlots, needed};
ghost use Rattle.slot_plan.specs.declared.need.Need.{Need};
ghost use Rattle.slot_plan.specs.declared.need.Way.{Way};
ghost use Rattle.slot_needs.specs.Needs.{AreSame};

/// Slots that serve the same needs, however often each stands there, serve them all and no other.
pub fn slots_serve_all_needs()
    ensures { (ways : Way → Bool) (all few : List Need) (slots : List Goal) → AreSame all few → AreSlots (needed ways few) slots
        → AreSlots (needed ways all) slots }
{}
