//! Needs so far, and of the goals of a pool the ways in which they were needed.
ghost use Rattle.std.specs.Prelude.{◌≡◌, ◌<◌, ◌++◌, ◌∷◌, [], true, Contains, IfOk, get_or, length, slice_get, slice_set, Some};
ghost use Rattle.mo_types.specs.declared.goal.Goal.{Goal as Goals};
ghost use Rattle.resolve.specs.Table.{goal_in};
ghost use Rattle.slot_needs.specs.inner.Gathered.{need, no_way, with_way};

use crate::ways::{NO_WAY, Ways};
use mo_types::{Goal, OutOfMemory};
use slot_plan::{Need, NeedList, Way};
use std::alloc::Global;
use std::marker::Model;

/// Needs so far. Contracts see them and the pool.
#[derive(Drop)]
pub(crate) struct Gathering<'a> {
    pool: &'a [Goal],
    seen: Vec<Ways>,
    needs: NeedList,
}

impl<'a> Model for Gathering<'a> {
    ghost use Rattle.std.specs.Prelude.{◌≡◌, length};
    ghost use Rattle.slot_needs.specs.inner.Gathered.{AreNoted, Gathered};

    ghost Value = { Gathered };

    ghost view = { λ g. record { pool = g.pool.now; needs = g.needs } };

    ghost invariant = { λ g. (length g.seen.items ≡ length g.pool.now) × AreNoted g.pool.now g.seen.items g.needs };
}

// Notes that the goal at a place was needed in a way.
#[tactic(auto, using(crate::proofs::GatheringLemmas::marks))]
fn mark(seen: &mut Vec<Ways>, place: usize, way: Way)
    requires { place < length seen.now.items }
    ensures { seen.new.items ≡ slice_set seen.old.items place (with_way (get_or seen.old.items place no_way) way) }
{
    let ways = seen[place];
    seen[place] = ways.with(way);
}

impl<'a> Gathering<'a> {
    /// No needs yet.
    #[tactic(auto, using(crate::proofs::GatheringLemmas::begins))]
    pub(crate) fn new(alloc: Global, pool: &'a [Goal]) -> Result<Gathering<'a>, OutOfMemory>
        ensures { IfOk result (λ g. g ≡ record { pool = pool.now; needs = [] }) }
    {
        let seen = vec![in alloc; NO_WAY; pool.len()]?;
        Ok(Gathering {
            pool,
            seen,
            needs: NeedList::new(alloc),
        })
    }

    /// All goals of the pool.
    #[inline(always)]
    pub(crate) fn pool(&self) -> &'a [Goal]
        ensures { result.now ≡ self.now.pool }
    {
        self.pool
    }

    /// Whether the goal at a place of the pool was needed in a way; `false` is no news.
    #[tactic(auto, using(crate::proofs::GatheringLemmas::noted))]
    #[inline(always)]
    pub(crate) fn has(&self, place: usize, way: Way) -> bool
        ensures { result ≡ true → (goal : Goals) → slice_get self.now.pool place ≡ Some goal → Contains self.now.needs (need goal way) }
    {
        match self.seen.get(place) {
            Some(ways) => ways.has(way),
            None => false,
        }
    }

    /// With the need of a goal.
    #[tactic(auto, using(crate::proofs::GatheringLemmas::adds))]
    pub(crate) fn with(self, goal: Goal, way: Way) -> Result<Gathering<'a>, OutOfMemory>
        ensures { IfOk result (λ g. g ≡ record { pool = self.entry.pool; needs = self.entry.needs ++ need goal way ∷ [] }) }
    {
        let Gathering {
            pool,
            seen,
            mut needs,
        } = self;
        needs.push(Need { goal, way })?;
        Ok(Gathering { pool, seen, needs })
    }

    /// With the need of the goal at a place of the pool.
    pub(crate) fn with_place(self, place: usize, way: Way) -> Result<Gathering<'a>, OutOfMemory>
        requires { place < length self.pool }
        ensures { IfOk result (λ g. g ≡ record { pool = self.entry.pool; needs = self.entry.needs ++ need (goal_in self.entry.pool place) way ∷ [] }) }
    {
        let goal = self.pool[place].clone()?;
        let Gathering {
            pool,
            mut seen,
            needs,
        } = self.with(goal, way)?;
        mark(&mut seen, place, way);
        Ok(Gathering { pool, seen, needs })
    }

    /// The needs.
    pub(crate) fn into_needs(self) -> NeedList
        ensures { result ≡ self.entry.needs }
    {
        self.needs
    }
}
