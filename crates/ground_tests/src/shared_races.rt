//! Races in one thread and in several, against words that were counted by hand and by `race_core`.
ghost use Rattle.std.specs.Prelude.{◌≡◌, ◌<◌, ◌≤◌, length, All, IfOk};
ghost use Rattle.std.specs.Thread.{IsSync};

use mo_types::OutOfMemory;
use name_race::{NameRace, Racer};
use race_core::{Offer, replay};
use std::alloc::{AllocError, Global};
use std::thread::{Threads, join};

const NONE: u64 = u64::MAX;

// Makes the offers of these events.
fn offer_all(race: &NameRace, racer: Racer, events: &[Offer]) -> Racer
    requires racer { racer.race ≡ race.now }
    requires names { All (λ e. e.name < length race.now.start) events.now }
    ensures race { result.race ≡ race.now }
    ensures passes { result.passes ≡ racer.passes }
{
    let mut racer = racer;
    for event in events {
        race.offer(&mut racer, event.name, event.word);
    }
    racer
}

// Makes them in two threads.
fn offer_by_two<R: Threads + Sync>(rt: &R, race: &NameRace, racer: Racer, events: &[Offer]) -> Racer
    requires racer { racer.race ≡ race.now }
    requires passes { 2 ≤ racer.passes }
    requires names { All (λ e. e.name < length race.now.start) events.now }
    ensures race { result.race ≡ race.now }
    ensures passes { result.passes ≡ racer.passes }
{
    let mut racer = racer;
    let (front, back) = events.split_at(events.len() / 2);
    let other = race.split(&mut racer, 1);
    let (mut racer, other) = join(
        rt,
        move || -> Racer
            requires { (racer.race ≡ race.now) × All (λ e. e.name < length race.now.start) front.now }
            ensures { (result.race ≡ race.entry.now) × (result.passes ≡ racer.passes) }
        { offer_all(race, racer, front) },
        move || -> Racer
            requires { (other.race ≡ race.now) × All (λ e. e.name < length race.now.start) back.now }
            ensures { (result.race ≡ race.entry.now) × (result.passes ≡ other.passes) }
        { offer_all(race, other, back) },
    );
    race.join(&mut racer, other);
    racer
}

// Makes them in four threads.
fn offer_by_four<R: Threads + Sync>(
    rt: &R,
    race: &NameRace,
    racer: Racer,
    events: &[Offer],
) -> Racer
    requires racer { racer.race ≡ race.now }
    requires passes { 4 ≤ racer.passes }
    requires names { All (λ e. e.name < length race.now.start) events.now }
    ensures race { result.race ≡ race.now }
    ensures passes { result.passes ≡ racer.passes }
{
    let mut racer = racer;
    let (front, back) = events.split_at(events.len() / 2);
    let other = race.split(&mut racer, 2);
    let (mut racer, other) = join(
        rt,
        move || -> Racer
            requires { IsSync R.row × (racer.race ≡ race.now) × (2 ≤ racer.passes) × All (λ e. e.name < length race.now.start) front.now }
            ensures { (result.race ≡ race.entry.now) × (result.passes ≡ racer.passes) }
        { offer_by_two(rt, race, racer, front) },
        move || -> Racer
            requires { IsSync R.row × (other.race ≡ race.now) × (2 ≤ other.passes) × All (λ e. e.name < length race.now.start) back.now }
            ensures { (result.race ≡ race.entry.now) × (result.passes ≡ other.passes) }
        { offer_by_two(rt, race, other, back) },
    );
    race.join(&mut racer, other);
    racer
}

// Offers that look random, and are the same each time.
fn many_offers(alloc: Global, count: u32) -> Result<Vec<Offer>, AllocError>
    ensures { IfOk result (λ v. All (λ e. e.name < 100000) v.items) }
{
    let mut events = Vec::with_capacity(alloc, count as usize)?;
    let mut state = 1u64;
    for i in 0..count {
        state = state
            .wrapping_mul(6364136223846793005)
            .wrapping_add(1442695040888963407);
        events.push(Offer {
            worker: i % 4,
            name: ((state >> 32) % 100_000) as u32,
            word: state,
        })?;
    }
    Ok(events)
}

// The offers of two workers for three names.
const OFFERS: [Offer; 4] = [
    Offer {
        worker: 0,
        name: 0,
        word: 7,
    },
    Offer {
        worker: 0,
        name: 0,
        word: 5,
    },
    Offer {
        worker: 1,
        name: 0,
        word: 5,
    },
    Offer {
        worker: 1,
        name: 2,
        word: 9,
    },
];

pub(crate) fn three_names<R: Threads + Sync>(rt: &R, alloc: Global) -> Result<bool, OutOfMemory> {
    let (race, racer) = NameRace::begin(alloc, vec![in alloc; NONE; 3]?, 2)?;
    let racer = offer_by_two(rt, &race, racer, &OFFERS);
    let mut words = [0; 3];
    race.settle(racer, &mut words);
    Ok(words == [5, NONE, 9])
}

pub(crate) fn a_racer_sees_the_word_of_another(alloc: Global) -> Result<bool, OutOfMemory> {
    let (race, mut first) = NameRace::begin(alloc, vec![in alloc; NONE]?, 2)?;
    let mut second = race.split(&mut first, 1);
    let seen = [
        race.least(&mut second, 0),
        race.offer(&mut first, 0, 7),
        race.least(&mut second, 0),
        race.offer(&mut second, 0, 9),
        race.least(&mut first, 0),
    ];
    race.join(&mut first, second);
    let mut words = [0; 1];
    race.settle(first, &mut words);
    Ok(seen == [NONE, NONE, 7, 7, 7] && words == [7])
}

fn replayed(alloc: Global, events: &[Offer]) -> Result<Vec<u64>, OutOfMemory>
    requires { All (λ e. e.name < 100000) events.now }
{
    let mut words = vec![in alloc; NONE; 100_000]?;
    replay(words.as_mut_slice(), events);
    Ok(words)
}

fn settled_by_four<R: Threads + Sync>(
    rt: &R,
    alloc: Global,
    events: &[Offer],
) -> Result<Vec<u64>, OutOfMemory>
    requires { All (λ e. e.name < 100000) events.now }
{
    let mut words = vec![in alloc; 0; 100_000]?;
    let (race, racer) = NameRace::begin(alloc, vec![in alloc; NONE; 100_000]?, 4)?;
    let racer = offer_by_four(rt, &race, racer, events);
    race.settle(racer, words.as_mut_slice());
    Ok(words)
}

pub(crate) fn four_threads_settle_what_one_replays<R: Threads + Sync>(
    rt: &R,
    alloc: Global,
) -> Result<bool, OutOfMemory> {
    let events = many_offers(alloc, 1_000_000)?;
    let settled = settled_by_four(rt, alloc, events.as_slice())?;
    let replayed = replayed(alloc, events.as_slice())?;
    Ok(settled == replayed)
}
