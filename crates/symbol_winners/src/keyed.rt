//! Winning candidates with the keys by which they are sorted.
ghost use Rattle.std.specs.Prelude.{◌≡◌, ◌≢◌, None};
ghost use Rattle.std.specs.Ordering.{nat_cmp};
ghost use Rattle.std.specs.Cmp.Lexicographic.{slice_cmp};
ghost use Rattle.symbol_winners.specs.inner.Best as bests;

use crate::best::Best;
use crate::chosen::Chosen;
use crate::front::{Front, compare, front_of};
use std::cmp::Ordering;
use std::marker::Model;

/// A winning candidate, by where it is held, with the front of its name. So what is sorted is small, and few comparisons
/// read the names themselves.
#[derive(Drop)]
pub(crate) struct Keyed<'t, 'a> {
    front: Front,
    best: &'t Best<'a>,
    ghost wins: { bests.chosen_of best.now ≢ None },
}

const _: () = prove!(size_of::<Keyed>() == 32);

impl<'t, 'a> Model for Keyed<'t, 'a> {
    ghost use Rattle.symbol_winners.specs.inner.Front.{IsFrontOf};
    ghost use Rattle.symbol_winners.specs.declared.chosen.Chosen.{Chosen};
    ghost use Rattle.symbol_winners.specs.inner.Best.{chosen_name, chosen_of, the_chosen};

    ghost Value = { Chosen };

    ghost view = { λ k. the_chosen (chosen_of k.best.now) k.wins };

    ghost invariant = { λ k. IsFrontOf (chosen_name (the_chosen (chosen_of k.best.now) k.wins)) k.front };
}

impl<'t, 'a> Keyed<'t, 'a> {
    /// The candidate that wins, with its key.
    #[tactic(auto, using(crate::proofs::ChosenLemmas::sures))]
    pub fn of(best: &'t Best<'a>) -> Option<Keyed<'t, 'a>>
        ensures { result ≡ bests.chosen_of best.now }
    {
        match best.winner {
            Some(found) => Some(Keyed {
                front: front_of(found.symbol.name.as_slice()),
                best,
            }),
            None => None,
        }
    }

    /// The candidate.
    #[tactic(auto, using(crate::proofs::ChosenLemmas::sures))]
    pub fn chosen(&self) -> Chosen<'a>
        ensures { result ≡ self.now }
    {
        match self.best.winner {
            Some(found) => Chosen {
                found,
                size: self.best.size,
                align: self.best.align,
            },
            None => unreachable!(),
        }
    }

    #[tactic(auto, using(crate::proofs::ChosenLemmas::sures))]
    fn name(&self) -> &[u8]
        ensures { result.now ≡ bests.chosen_name self.now }
    {
        match self.best.winner {
            Some(found) => found.symbol.name.as_slice(),
            None => &[],
        }
    }

    /// How the names compare.
    pub fn by_name(&self, other: &Keyed<'_, '_>) -> Ordering
        ensures { result ≡ slice_cmp nat_cmp (bests.chosen_name self.now) (bests.chosen_name other.now) }
    {
        match compare(self.front, other.front) {
            Ordering::Equal => self.name().cmp(other.name()),
            unequal => unequal,
        }
    }
}
