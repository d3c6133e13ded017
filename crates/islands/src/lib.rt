//! Which islands an image has, and which of its branches goes to which.
//!
//! `plan` is asked with the kept atoms and their layout without islands, the branches of the image, each with its place and
//! its target, and how far they reach. What it answers is `IsPlan` (`specs/Plan.antt`): the atoms of `__text` are cut into
//! groups of at most half the reach; targets stand in the order of goals, then of addends (`specs/Targets.antt`); each
//! branch comes as numbers (`row_of`, in `specs/Rows.antt`: what it is, its group and target, where both stand); and the
//! pairs of a group and a target that have islands are the least set with which each branch that needs one has one
//! (`IsFar` of `island_core`). Behind the last atom of each group that has islands is an area with them, in the order of
//! targets, and a branch goes by the island of its pair. `hop` reads off the number of its island. The one error is want
//! of memory.
//!
//! The module `ground` reads once what tells an atom's place by its address, and `quick` tells at once by addresses where no
//! branch needs an island. Else `text` lists the atoms of `__text`, `numbering` finds the different targets and nearly puts
//! them in order, `target` puts them in order, `spot` tells where each stands, `row` makes the numbers, and `area` the areas
//! and ways: n branches to t targets cost O(n log t) at most beside the rounds of `island_core`, and O(n + t log t) where
//! what `numbering` says of the branches' targets is right. Nothing that is proved rests on that.
//!
//! The laws say that there is a plan (`a_plan_exists`), and one alone (`a_plan_is_one`), that in the image with its islands
//! all other branches reach (`other_branches_reach`), that none of its islands can be left out
//! (`no_island_can_be_left_out`), and that there are none where all branches reach (`no_islands_where_branches_reach`).
//!
//! A body that takes a target without its addend isn't proved, nor one that forgets how far islands may move a branch with
//! an addend, one with islands for all targets or for each branch, one whose groups are as long as the reach, and one that
//! takes an addend for none where it looks at addresses alone.
#![tactic(auto)]

mod area;
mod branch;
mod ground;
mod laws;
mod numbering;
mod planning;
mod quick;
mod row;
mod spot;
mod target;
mod text;

pub use branch::{Branch, BranchList};
pub use laws::{
    a_plan_exists, a_plan_is_one, no_island_can_be_left_out, no_islands_where_branches_reach,
    other_branches_reach,
};
pub use planning::{hop, plan};
pub use spot::Spot;
