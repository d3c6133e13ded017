//! A race of names from its start to its words.
ghost use Rattle.std.specs.Prelude.{◌≡◌, ◌<◌, ◌≤◌, [], ◌∷◌, length, All, IfOk, sum_by, vec_len};
ghost use Rattle.std.specs.List.Sorted.{IsPermutation};
ghost use Rattle.mo_types.specs.Loaded.{IsWholeLoaded};
ghost use Rattle.name_ids.specs.Names.{numbers_of};
ghost use Rattle.race_core.specs.Run.{run};
ghost use Rattle.name_offers.specs.Offers.{bids_of, offers_of};
ghost use Rattle.symbol_winners.specs.Found.{AreNamed};
ghost use Rattle.name_offers.specs.inner.Offering.{AreRacers};

use crate::offering::offer_all;
use crate::plain::offer_files;
use mo_outside::Gate;
use mo_types::{Loaded, LoadedFile, OutOfMemory};
use name_ids::Numbered;
use name_race::{NameRace, Racer};
use std::alloc::Global;
use std::thread::Threads;

// The racers of a race, one for each of its passes.
#[tactic(auto, using(crate::proofs::TeamLemmas::teams))]
fn racers_of(
    alloc: Global,
    race: &NameRace,
    first: Racer,
    passes: u32,
) -> Result<Vec<Racer>, OutOfMemory>
    requires first { AreRacers race.now passes (first ∷ []) }
    requires passes { 0 < passes }
    ensures racers { IfOk result (λ all. AreRacers race.now passes all.items) }
    ensures count { IfOk result (λ all. vec_len all ≡ passes) }
{
    let mut first = first;
    let mut all = Vec::new(alloc);
    for _i in 1..passes {
        all.push(race.split(&mut first, 1))?;
    }
    all.push(first)?;
    Ok(all)
}

// One racer with the passes and offers of all.
#[tactic(auto, using(crate::proofs::TeamLemmas::joins))]
fn joined(race: &NameRace, racers: Vec<Racer>) -> Racer
    requires some { 0 < vec_len racers }
    requires race { All (λ racer. racer.race ≡ race.now) racers.items }
    ensures race { result.race ≡ race.now }
    ensures passes { result.passes ≡ sum_by (λ racer. racer.passes) racers.items }
    ensures offers { IsPermutation (offers_of racers.items) result.offers }
{
    let mut rest = racers;
    let mut all = rest.pop().unwrap();
    for racer in rest {
        race.join(&mut all, racer);
    }
    all
}

/// The words of names after a race of so many workers: each is the least of its word at the start and of those of the
/// candidates of the files that have its name. No workers count as one.
pub fn race_words<R: Threads + Sync, G: Gate + Sync>(
    rt: &R,
    alloc: Global,
    gate: &G,
    workers: u32,
    start: Vec<u64>,
    files: &Loaded,
    numbered: &Numbered,
) -> Result<Vec<u64>, OutOfMemory>
    requires some { 0 < length start.items }
    requires whole { IsWholeLoaded files.now }
    requires named { AreNamed numbered.now.names files.now.files }
    requires numbers { numbered.now.numbers ≡ numbers_of numbered.now.names files.now.files }
    requires words { length numbered.now.names ≤ length start.items }
    ensures { IfOk result (λ words. words.items ≡ run start.items (bids_of numbered.now.names files.now.files)) }
{
    let workers = workers.max(1);
    let mut words = vec![in alloc; 0u64; start.len()]?;
    let (race, racer) = NameRace::begin(alloc, start, u64::from(workers))?;
    let racers = racers_of(alloc, &race, racer, workers)?;
    let racers = offer_all(rt, alloc, gate, &race, racers, files, numbered)?;
    let racer = joined(&race, racers);
    race.settle(racer, words.as_mut_slice());
    Ok(words)
}

// Whether files have so few symbols beside the words of names that a race, which takes the words over twice, costs more than
// to offer those of their candidates one after the other.
fn are_few(files: &[LoadedFile], words: usize) -> bool {
    let mut symbols = 0usize;
    for file in files {
        symbols = symbols.saturating_add(file.object.symbols.len());
    }
    symbols <= words / 4
}

/// The words of names after further files offered those of their candidates: each is the least of its word before and of
/// those of the candidates of the files that have its name. The offers are raced by so many workers (none count as one), or,
/// where the files have few symbols beside the names, made one after the other; the words are the same.
#[tactic(auto, using(crate::proofs::OfferLemmas::named_offers))]
pub fn words_after<R: Threads + Sync, G: Gate + Sync>(
    rt: &R,
    alloc: Global,
    gate: &G,
    workers: u32,
    before: Vec<u64>,
    files: &Loaded,
    numbered: &Numbered,
) -> Result<Vec<u64>, OutOfMemory>
    requires whole { IsWholeLoaded files.now }
    requires named { AreNamed numbered.now.names files.now.files }
    requires numbers { numbered.now.numbers ≡ numbers_of numbered.now.names files.now.files }
    requires words { length numbered.now.names ≤ length before.items }
    ensures { IfOk result (λ words. words.items ≡ run before.items (bids_of numbered.now.names files.now.files)) }
{
    if !before.is_empty() && !are_few(files.files.as_slice(), before.len()) {
        return race_words(rt, alloc, gate, workers, before, files, numbered);
    }
    let mut words = before;
    offer_files(
        words.as_mut_slice(),
        &numbered.names,
        files.files.as_slice(),
        numbered.numbers.as_slice(),
    );
    Ok(words)
}
