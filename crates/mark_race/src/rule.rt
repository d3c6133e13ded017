//! What holds of the words and of all markers' views between any two steps, and what each step tells its marker.
use atomic_table::{Join, Play, Split, TableRule};
use std::collections::LinkedList;
use std::marker::{Brand, PhantomData};

/// What is fixed when a race begins: the atoms that are marked at the start, and the passes of all markers together.
#[derive(Drop)]
pub(crate) struct Terms {
    pub(crate) start: Vec<bool>,
    pub(crate) passes: u64,
}

/// What a marker keeps, with the terms of its race. No value of it is made.
pub(crate) struct View {
    pub(crate) start: LinkedList<bool>,
    pub(crate) all_passes: u64,
    pub(crate) passes: u64,
    pub(crate) marks: LinkedList<u32>,
    pub(crate) gains: LinkedList<u32>,
}

pub(crate) struct Law;

impl TableRule<(), View, Terms> for Law {
    ghost use Rattle.mark_race.specs.Rule.{IsMarking, first_view};

    ghost holds = { IsMarking };

    ghost first = { first_view };
}

/// An atom is marked.
pub(crate) struct Marks;

impl Play<(), View> for Marks {
    ghost use Rattle.mark_race.specs.Rule.{Marked};

    ghost then = { Marked };
}

/// A marker looks, and marks nothing.
pub(crate) struct Looks;

impl Play<(), View> for Looks {
    ghost use Rattle.mark_race.specs.Rule.{Looked};

    ghost then = { Looked };
}

/// How many passes go to a new marker. Each call picks the number.
pub(crate) trait Share {
    ghost use Rattle.std.specs.Prelude.{ℕ};

    ghost count: { ℕ };
}

impl Share for Brand {
    ghost count = { 1 };
}

/// Passes go to a new marker.
pub(crate) struct Cut<J> {
    of: PhantomData<J>,
}

impl<J: Share> Split<View> for Cut<J> {
    ghost use Rattle.mark_race.specs.Rule.{giver, newcomer};

    ghost left = { λ v. giver v J.count };

    ghost right = { λ v. newcomer v J.count };
}

/// One marker takes in another.
pub(crate) struct Merge;

impl Join<View> for Merge {
    ghost use Rattle.mark_race.specs.Rule.{union_of, spent_view};

    ghost both = { union_of };

    ghost spent = { spent_view };
}
