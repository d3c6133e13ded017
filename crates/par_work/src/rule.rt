//! What holds of the counter and of all drawers' views between any two steps, and what a draw tells its drawer.
use atomic_table::{Join, Play, Split, TableRule};
use std::collections::LinkedList;
use std::marker::{Brand, PhantomData};

/// What is fixed when the claims begin: the passes and draws of all drawers together.
#[derive(Drop)]
pub(crate) struct Terms {
    pub(crate) passes: u64,
}

/// What a drawer keeps. No value of it is made.
pub(crate) struct View {
    pub(crate) passes: u64,
    pub(crate) draws: LinkedList<u64>,
}

pub(crate) struct Law;

impl TableRule<(), View, Terms> for Law {
    ghost use Rattle.par_work.specs.Rule.{IsDrawing, first_view};

    ghost holds = { IsDrawing };

    ghost first = { first_view };
}

/// A number is drawn.
pub(crate) struct Draws;

impl Play<(), View> for Draws {
    ghost use Rattle.par_work.specs.Rule.{Drawn};

    ghost then = { Drawn };
}

/// How many passes go to a new drawer. Each call picks the number.
pub(crate) trait Share {
    ghost use Rattle.std.specs.Prelude.{ℕ};

    ghost count: { ℕ };
}

impl Share for Brand {
    ghost count = { 1 };
}

/// Passes go to a new drawer.
pub(crate) struct Cut<J> {
    of: PhantomData<J>,
}

impl<J: Share> Split<View> for Cut<J> {
    ghost use Rattle.par_work.specs.Rule.{giver, newcomer};

    ghost left = { λ v. giver v J.count };

    ghost right = { λ _. newcomer J.count };
}

/// One drawer takes in another.
pub(crate) struct Merge;

impl Join<View> for Merge {
    ghost use Rattle.par_work.specs.Rule.{union_of, spent_view};

    ghost both = { union_of };

    ghost spent = { spent_view };
}
