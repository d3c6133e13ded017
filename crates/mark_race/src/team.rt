//! Markers for the workers of a level, made of one and made into one.
ghost use Rattle.std.specs.Prelude.{◌≡◌, ◌<◌, ◌≤◌, All, IfOk, vec_len};
ghost use Rattle.mark_race.specs.inner.Team.{IsTeam, IsUnion};

use crate::race::{MarkRace, Marker};
use mo_types::OutOfMemory;
use std::alloc::Global;

/// So many markers that have together what one had: each but the last one has one pass, and no marks.
#[tactic(auto, using(crate::proofs::Teams::splits))]
pub(crate) fn team_of(
    alloc: Global,
    race: &MarkRace,
    marker: Marker,
    count: u32,
) -> Result<Vec<Marker>, OutOfMemory>
    requires marker { marker.race ≡ race.now }
    requires count { (0 < count) × (count ≤ marker.passes) }
    ensures team { IfOk result (λ team. IsTeam race.now marker team.items) }
    ensures count { IfOk result (λ team. vec_len team ≡ count) }
{
    let mut first = marker;
    let mut team = Vec::with_capacity(alloc, count as usize)?;
    for _i in 1..count {
        team.push(race.split(&mut first, 1))?;
    }
    team.push(first)?;
    Ok(team)
}

/// One marker that has together what these have.
#[tactic(auto, using(crate::proofs::Teams::joins))]
pub(crate) fn union(race: &MarkRace, team: Vec<Marker>) -> Marker
    requires some { 0 < vec_len team }
    requires race { All (λ m. m.race ≡ race.now) team.items }
    ensures { IsUnion race.now team.items result }
{
    let mut rest = team;
    let mut all = rest.pop().unwrap();
    for marker in rest {
        race.join(&mut all, marker);
    }
    all
}
