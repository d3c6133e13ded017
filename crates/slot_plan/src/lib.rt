//! The slots of an image: which goals have one in the global offset table, a stub, or one for thread-local
//! variables, in which order, and the place of each.
//!
//! This crate lists the slots of an image: the goals in the global offset table, those with stubs, and those with
//! slots for thread-local variables. `slots` gives in each list each goal that is needed so and no other (`got`,
//! `stubs`, `tlv`), in the order of goals, which is total (`goals_are_in_order`), each once (`a_goal_stands_once`),
//! and no other list is that (`slots_are_one_list`); what has a stub has a slot that the stub loads
//! (`stubs_have_slots`). `place_of` is a goal's place in a list, or `None` exactly where it isn't there, by binary
//! search and without memory. The lists are defined in `specs/Slots.antt`.
//!
//! A body that lists a goal twice, one that gives a stub no slot to load, one that answers the place behind a goal's
//! own, and one that takes two needs of one goal for the same, whatever their ways, don't meet the contracts.
#![tactic(auto)]

mod few;
mod laws;
mod list;
mod need;
mod order;
mod plan;
mod rough;
mod seen;

pub use laws::{a_goal_stands_once, goals_are_in_order, slots_are_one_list, stubs_have_slots};
pub use list::{SlotList, Slots};
pub use need::{Need, NeedList, Way};
pub use plan::slots;
