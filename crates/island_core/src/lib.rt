//! Which branches of an image take islands: those alone that can't do without, since each moves what is behind it.
//!
//! A branch reaches some 128 MiB. Where its target is farther away or isn't in `__TEXT`, it goes to an island, which
//! stands behind the group of atoms of the branch. `cut_atoms` cuts the atoms of `__text` into groups, each as long as
//! it may be (`AreEnds`, in `specs/Groups.antt`); `groups_are_one_cutting` says that there is one way.
//!
//! `far_pairs` answers which groups have islands to which targets (`IsFar`, in `specs/Far.antt`): the least set of
//! pairs that is closed. A set is closed where each branch has an island in it that needs one in the image with the
//! set's islands. Branches come as numbers (`Row`): what they are, their group and target, where both stand without
//! islands, and how many groups are before the target. It begins with no islands, and in each round adds those for the
//! branches that are out of reach with what there is, until there are no more: each round but the last adds a pair, and
//! costs a look at each branch and a sort of the pairs. `pairs_of` lists the pairs of all branches, `moved_by` tells how
//! far some pairs' islands move what is behind, and `place_of` which island is a pair's. The one error is want of
//! memory.
//!
//! The laws say that there is a least closed set (`far_pairs_exist`), that it is one (`far_pairs_are_one_set`), that
//! without any one of its pairs it isn't closed (`each_pair_is_needed`), and that it is empty where all branches reach
//! without islands (`no_islands_where_all_reach`).
//!
//! A body whose islands push nothing isn't proved, nor one that forgets the slack of a branch with an addend, one whose
//! branches reach a word farther, and one that cuts groups by where their atoms begin.
#![tactic(auto)]

mod cut;
mod laws;
mod pairs;
mod rounds;
mod row;

pub use cut::{Extent, cut_atoms, groups_are_one_cutting};
pub use laws::{
    each_pair_is_needed, far_pairs_are_one_set, far_pairs_exist, no_islands_where_all_reach,
};
pub use pairs::{pairs_of, place_of};
pub use rounds::{far_pairs, moved_by};
pub use row::{Case, Pair, Row, Scale};
