//! Functions of an image that are the same, and may so be one.
//!
//! A `FoldNode` is a function with its bytes, in which the fields of its references are zero, its references and its unwind
//! entries. Two are alike (`AreAlike`, in `specs/Fold.antt`) where they have equal bytes, references with equal places,
//! kinds and addends, and equal unwind entries, and where their goals are equal, or lead to equal offsets in functions that
//! are alike themselves: so functions that call each other may be one too. That is a condition on a whole partition of the
//! functions (`IsAlike`), of which the coarsest is meant (`IsCoarsest`): every other such partition refines it.
//!
//! `fold` answers for each node the number of the first of its class in the coarsest partition (`IsFolded`). It wants keys
//! that rise and goals that are nodes of the list. The one error is want of memory.
//!
//! The module `shape` compares nodes by all but the nodes to which they refer, `firsts` finds equal keys, `ends` lists the
//! nodes to which nodes refer, and `round` takes classes apart by the classes of these. `folding` starts with the classes of
//! one shape, and goes on until a round changes nothing. A round takes time in the number of references; there are at most
//! as many as nodes, and mostly few.
//!
//! The laws say that all nodes have nodes that stand for them (`folded_nodes_exist`), that these are one list
//! (`folded_nodes_are_one_list`), that two coarsest partitions have the same classes (`the_coarsest_partition_is_one`), and
//! that the node that stands for others has the least key of them (`the_least_key_stands_for_all`).
//!
//! No body is proved that lets no functions be one that call each other, that leaves out unwind entries or what references
//! subtract, or that doesn't compare addends.
#![tactic(auto)]

mod ends;
mod firsts;
mod folding;
mod laws;
mod node;
mod round;
mod shape;

pub use folding::fold;
pub use laws::{
    folded_nodes_are_one_list, folded_nodes_exist, the_coarsest_partition_is_one,
    the_least_key_stands_for_all,
};
pub use node::{
    FoldGoal, FoldNode, FoldNodes, FoldUnwind, FoldUnwinds, Link, LinkList, NumberList,
};
