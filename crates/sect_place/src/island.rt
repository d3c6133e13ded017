ghost use Rattle.std.specs.Prelude.{◌≡◌, [], ◌∷◌, ◌++◌, All, OnOk, OnErr};
ghost use Rattle.std.specs.List.{find};
ghost use Rattle.std.specs.List.Sorted.{IsStrictlySortedBy};
ghost use Rattle.std.specs.Option.{option_copied};
ghost use Rattle.std.specs.Ordering.{on, is_eq};
ghost use Rattle.std.specs.declared.cmp.Ordering.TheVariants.{Less};
ghost use Rattle.mo_types.specs.Keys.{compare_keys};
ghost use Rattle.sect_place.specs.declared.island.IslandArea.{IslandArea};

use mo_types::{AtomKey, Goal, Items, OutOfMemory, compare_atoms};
use std::alloc::Global;
use std::marker::Model;

/// Where a branch goes.
#[derive(Debug, Drop)]
pub struct BranchTarget {
    pub goal: Goal,
    /// In bytes from the goal on.
    pub addend: i64,
    /// The number of the stub that stands for the goal, counted from 0.
    pub stub: Option<u32>,
}

/// Targets of branches, in a stated order.
pub type BranchTargetList = Items<BranchTarget>;

/// Islands behind an atom of `__text`: each takes branches on to where they don't reach.
#[derive(Debug, Drop)]
pub struct IslandArea {
    /// The atom at whose end the area begins.
    pub last: AtomKey,
    /// Where each of its islands goes.
    pub targets: BranchTargetList,
}

/// Areas of different atoms, in the order of these. Contracts see the list of them.
#[derive(Debug, Drop)]
pub struct AreaList {
    areas: Vec<IslandArea>,
}

impl Model for AreaList {
    ghost use Rattle.std.specs.Prelude.{List};
    ghost use Rattle.std.specs.List.Sorted.{IsStrictlySortedBy};
    ghost use Rattle.std.specs.Ordering.{on};
    ghost use Rattle.mo_types.specs.Keys.{compare_keys};
    ghost use Rattle.sect_place.specs.declared.island.IslandArea.{IslandArea};

    ghost Value = { List IslandArea };

    ghost view = { λ list. list.areas.items };

    ghost invariant = { λ list. IsStrictlySortedBy (on (λ (area : IslandArea). area.last) compare_keys) list.areas.items };
}

impl AreaList {
    /// No areas, which takes no memory.
    pub fn new(alloc: Global) -> AreaList
        ensures { result ≡ [] }
    {
        AreaList {
            areas: Vec::new(alloc),
        }
    }

    /// The list of areas that are in order.
    pub fn from_sorted(areas: Vec<IslandArea>) -> AreaList
        requires { IsStrictlySortedBy (on (λ (area : IslandArea). area.last) compare_keys) areas.items }
        ensures { result ≡ areas.items }
    {
        AreaList { areas }
    }

    /// All areas, in order.
    pub fn as_slice(&self) -> &[IslandArea]
        ensures all { result.now ≡ self.now }
        ensures rising { IsStrictlySortedBy (on (λ (area : IslandArea). area.last) compare_keys) self.now }
    {
        self.areas.as_slice()
    }
}

/// The number of each branch's island, or `None` where the branch goes to its target.
pub type WayList = Items<Option<usize>>;

/// Which islands an image has, and which branch goes to which.
#[derive(Debug, Drop)]
pub struct IslandPlan {
    pub areas: AreaList,
    /// One for each branch, in the order of the branches.
    pub ways: WayList,
}
