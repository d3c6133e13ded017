//! What the least closed set is, each on a call that does nothing.
ghost use Rattle.std.specs.Prelude.{◌≡◌, [], true, false, not, List, All};
ghost use Rattle.std.specs.List.{filter};
ghost use Rattle.island_core.specs.Far.{IsClosed, IsFar, IsInTurn, IsScale, has, needs, same_pair};
ghost use Rattle.island_core.specs.declared.row.Pair.{Pair};
ghost use Rattle.island_core.specs.declared.row.Row.{Row};
ghost use Rattle.island_core.specs.declared.row.Scale.{Scale};

/// There is a least closed set, whatever the branches.
pub fn far_pairs_exist()
    ensures { (scale : Scale) (rows : List Row) → IsScale scale → All IsInTurn rows
        → (far : List Pair) × IsFar scale rows far }
{}

/// There is one alone.
pub fn far_pairs_are_one_set()
    ensures { (scale : Scale) (rows : List Row) (a b : List Pair) → IsFar scale rows a → IsFar scale rows b → a ≡ b }
{}

/// Without any one of its pairs it isn't closed.
pub fn each_pair_is_needed()
    ensures { (scale : Scale) (rows : List Row) (far : List Pair) (pair : Pair)
        → IsFar scale rows far → has far pair ≡ true
        → ¬ IsClosed scale rows (filter (λ other. not (same_pair other pair)) far) }
{}

/// It is empty where no branch needs an island without islands.
pub fn no_islands_where_all_reach()
    ensures { (scale : Scale) (rows : List Row) (far : List Pair) → IsFar scale rows far
        → All (λ row. needs scale [] row ≡ false) rows → far ≡ [] }
{}
