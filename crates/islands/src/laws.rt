//! What a plan of islands is, each on a call that does nothing.
ghost use Rattle.std.specs.Prelude.{◌≡◌, ℕ, ◌<◌, ◌≤◌, ◌^◌, [], None, Some, not, true, List, All, length, slice_get, slice_index_or};
ghost use Rattle.std.specs.List.{filter};
ghost use Rattle.mo_types.specs.declared.atom.Atom.{Atom};
ghost use Rattle.sect_place.specs.Layout.{IsLayoutOf, plan_of};
ghost use Rattle.sect_place.specs.declared.island.IslandPlan.{IslandPlan};
ghost use Rattle.sect_place.specs.declared.layout.Layout.{Layout};
ghost use Rattle.island_core.specs.Far.{IsClosed, has, same_pair};
ghost use Rattle.island_core.specs.declared.row.Pair.{Pair};
ghost use Rattle.islands.specs.Plan.{IsInAtoms, IsPlan, IsWithoutIslands, scale_of};
ghost use Rattle.islands.specs.Reach.{IsWord, NeedsNone, Reaches};
ghost use Rattle.islands.specs.Rows.{rows_of};
ghost use Rattle.islands.specs.Text.{in_code, lasts_of, text_atoms};
ghost use Rattle.islands.specs.declared.branch.Branch.{Branch};

/// An image with some branches has a plan, however far branches reach in 64 bits.
pub fn a_plan_exists()
    ensures { (kept : List Atom) (layout : Layout) (branches : List Branch) (reach : ℕ)
        → IsWithoutIslands kept layout → All (IsInAtoms kept) branches → 4 ≤ reach → reach < 2 ^ 64
        → (plan : IslandPlan) × IsPlan kept layout branches reach plan }
{}

/// It has one alone.
pub fn a_plan_is_one()
    ensures { (kept : List Atom) (layout : Layout) (branches : List Branch) (reach : ℕ) (a b : IslandPlan)
        → IsWithoutIslands kept layout → IsPlan kept layout branches reach a → IsPlan kept layout branches reach b → a ≡ b }
{}

/// Without any one of its islands it leaves a branch out of reach.
pub fn no_island_can_be_left_out()
    ensures { (kept : List Atom) (layout : Layout) (branches : List Branch) (reach : ℕ) (plan : IslandPlan) (pair : Pair)
        → (is : IsPlan kept layout branches reach plan) → has is.far pair ≡ true
        → ¬ IsClosed (scale_of layout reach (length is.ends) is.pairs)
        (rows_of layout (lasts_of (text_atoms kept layout) is.ends) is.targets branches)
        (filter (λ other. not (same_pair other pair)) is.far) }
{}

/// It has no islands where each branch of `__text` goes into `__TEXT` and is in reach without them, by whole words; one
/// with an addend has to stay so as far as anything can be moved.
pub fn no_islands_where_branches_reach()
    ensures { (kept : List Atom) (layout : Layout) (branches : List Branch) (reach : ℕ) (plan : IslandPlan)
        → (is : IsPlan kept layout branches reach plan)
        → All (NeedsNone layout (scale_of layout reach (length is.ends) is.pairs)) branches
        → (plan.areas ≡ []) × ((k : ℕ) → k < length branches → slice_index_or plan.ways k None ≡ None) }
{}

/// In the image with its islands each branch of `__text` that goes by none goes into `__TEXT`, and is in reach there.
pub fn other_branches_reach()
    ensures { (kept : List Atom) (before after : Layout) (branches : List Branch) (reach : ℕ) (plan : IslandPlan) (k : ℕ) (branch : Branch)
        → (is : IsWithoutIslands kept before) → IsPlan kept before branches reach plan
        → IsLayoutOf is.command (plan_of kept is.sections is.slots plan is.sizes is.command) after
        → slice_get branches k ≡ Some branch → in_code before branch.atom ≡ true → IsWord branch.target.addend
        → slice_index_or plan.ways k None ≡ None → Reaches after reach branch }
{}
