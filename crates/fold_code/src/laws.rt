//! What folded functions are, on calls that do nothing.
ghost use Rattle.std.specs.Prelude.{◌≡◌, ◌<◌, ℕ, List, length, slice_get, false, Some};
ghost use Rattle.std.specs.Ordering.{is_gt};
ghost use Rattle.mo_types.specs.Keys.{compare_keys};
ghost use Rattle.fold_code.specs.Fold.{AreNodes, IsCoarsest, IsFolded, IsRefined, Partition, partition_of};
ghost use Rattle.fold_code.specs.declared.node.FoldNode.{FoldNode};

/// For all nodes there are nodes that stand for them, and so there is a coarsest partition into alike ones.
pub fn folded_nodes_exist()
    ensures { (nodes : List FoldNode) → AreNodes nodes → (firsts : List ℕ) × IsFolded nodes firsts }
{}

/// Two coarsest partitions into alike nodes have the same classes.
pub fn the_coarsest_partition_is_one()
    ensures { (nodes : List FoldNode) (a b : Partition) → IsCoarsest nodes a → IsCoarsest nodes b → IsRefined (length nodes) a b }
{}

/// The numbers of the nodes that stand for nodes are one list.
pub fn folded_nodes_are_one_list()
    ensures { (nodes : List FoldNode) (a b : List ℕ) → IsFolded nodes a → IsFolded nodes b → a ≡ b }
{}

/// The node that stands for others has the least key of all of them.
pub fn the_least_key_stands_for_all()
    ensures { (nodes : List FoldNode) (firsts : List ℕ) → AreNodes nodes → IsFolded nodes firsts → (a : ℕ) (x y : FoldNode) → slice_get nodes a ≡ Some x
        → slice_get nodes (partition_of firsts a) ≡ Some y → is_gt (compare_keys y.key x.key) ≡ false }
{}
