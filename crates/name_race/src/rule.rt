//! What holds of the words and of all racers' views between any two steps, and what each step tells its racer.
use atomic_table::{Join, Play, Split, TableRule};
use std::collections::LinkedList;
use std::marker::{Brand, PhantomData};

/// What is fixed when a race begins: the words at the start, and the passes of all racers together.
#[derive(Drop)]
pub(crate) struct Terms {
    pub(crate) start: Vec<u64>,
    pub(crate) passes: u64,
}

/// What a racer keeps, with the terms of its race. No value of it is made.
pub(crate) struct View {
    pub(crate) start: LinkedList<u64>,
    pub(crate) all_passes: u64,
    pub(crate) passes: u64,
    pub(crate) offers: LinkedList<(u32, u64)>,
    pub(crate) known: LinkedList<(u32, u64)>,
}

pub(crate) struct Law;

impl TableRule<(), View, Terms> for Law {
    ghost use Rattle.name_race.specs.Rule.{IsRunning, first_view};

    ghost holds = { IsRunning };

    ghost first = { first_view };
}

/// A word is offered.
pub(crate) struct Offers;

impl Play<(), View> for Offers {
    ghost use Rattle.name_race.specs.Rule.{Offered};

    ghost then = { Offered };
}

/// A word is looked at.
pub(crate) struct Looks;

impl Play<(), View> for Looks {
    ghost use Rattle.name_race.specs.Rule.{Looked};

    ghost then = { Looked };
}

/// How many passes go to a new racer. Each call picks the number.
pub(crate) trait Share {
    ghost use Rattle.std.specs.Prelude.{ℕ};

    ghost count: { ℕ };
}

impl Share for Brand {
    ghost count = { 1 };
}

/// Passes go to a new racer.
pub(crate) struct Cut<J> {
    of: PhantomData<J>,
}

impl<J: Share> Split<View> for Cut<J> {
    ghost use Rattle.name_race.specs.Rule.{giver, newcomer};

    ghost left = { λ v. giver v J.count };

    ghost right = { λ v. newcomer v J.count };
}

/// One racer takes in another.
pub(crate) struct Merge;

impl Join<View> for Merge {
    ghost use Rattle.name_race.specs.Rule.{union_of, spent_view};

    ghost both = { union_of };

    ghost spent = { spent_view };
}
