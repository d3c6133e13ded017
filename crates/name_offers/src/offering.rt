//! The offers of files by workers in threads of their own.
ghost use Rattle.std.specs.Prelude.{◌≡◌, ◌<◌, ◌≤◌, ◌^◌, ℕ, [], ◌∷◌, length, map, take, drop, vec_len, All, IfOk};
ghost use Rattle.std.specs.List.{flat_map};
ghost use Rattle.mo_types.specs.Loaded.{IsWholeLoaded};
ghost use Rattle.name_ids.specs.Names.{number_of, numbers_in, numbers_of};
ghost use Rattle.name_offers.specs.Offers.{GrewBy, bids_of};
ghost use Rattle.symbol_winners.specs.Found.{AreNamed};
ghost use Rattle.name_offers.specs.inner.Offering.{AreOffered, HasOffered, HaveOffered, offers_at, offers_in};

use mo_outside::Gate;
use mo_types::{Loaded, LoadedFile, OutOfMemory, Symbol};
use name_ids::{NameTable, NumberList, Numbered, number_at, numbers_at};
use name_race::{NameRace, Racer};
use par_work::{Task, fan};
use std::alloc::Global;
use std::thread::Threads;

// The most jobs that are shared out at once.
const MOST_JOBS: usize = 1 << 30;

// So many lists from a place on, or those that there are.
#[tactic(auto, using(crate::proofs::OfferLemmas::parts))]
fn part(lists: &[NumberList], start: usize, count: usize) -> &[NumberList]
    ensures { result.now ≡ take count (drop start lists.now) }
{
    let rest = &lists[start.min(lists.len())..];
    &rest[..count.min(rest.len())]
}

// Offers the word of a file's symbol, where it is a candidate.
#[tactic(auto, using(crate::proofs::OfferLemmas::symbols))]
fn offer_symbol(
    race: &NameRace,
    racer: &mut Racer,
    names: &NameTable,
    file: &LoadedFile,
    index: u32,
    number: u32,
    symbol: &Symbol,
)
    requires racer { racer.old.race ≡ race.now }
    requires words { length names.now ≤ length race.now.start }
    requires member { file.now.id.member < 2 ^ 20 }
    requires index { index < 2 ^ 24 }
    requires number { number ≡ number_of names.now symbol.now }
    ensures { HasOffered (offers_at names.now file.now ((index, symbol.now) ∷ [])) racer.old racer.new }
{
    if !file.object.is_candidate(symbol) {
        return;
    }
    if let Some(id) = names.id_of_number(number) {
        race.offer(racer, id, file.id.word_of(index, symbol));
    }
}

// Offers the words of a file's candidates.
#[tactic(auto, using(crate::proofs::OfferLemmas::files))]
fn offer_file(
    race: &NameRace,
    racer: &mut Racer,
    names: &NameTable,
    file: &LoadedFile,
    numbers: &[u32],
)
    requires racer { racer.old.race ≡ race.now }
    requires words { length names.now ≤ length race.now.start }
    requires member { file.now.id.member < 2 ^ 20 }
    requires symbols { length file.now.object.symbols < 2 ^ 24 }
    requires numbers { numbers.now ≡ numbers_in names.now file.now }
    ensures { HasOffered (offers_in names.now file.now) racer.old racer.new }
{
    for (i, symbol) in file.object.symbols.as_slice().iter().enumerate() {
        offer_symbol(
            race,
            racer,
            names,
            file,
            i as u32,
            number_at(numbers, i),
            symbol,
        );
    }
}

// A job for each file: to offer the words of its candidates.
#[derive(Drop)]
struct Offering<'a> {
    race: &'a NameRace,
    names: &'a NameTable,
    files: &'a [LoadedFile],
    numbers: &'a [NumberList],
}

impl<'a> Task for Offering<'a> {
    ghost use Rattle.std.specs.Prelude.{◌≡◌, ◌≤◌, length};
    ghost use Rattle.mo_types.specs.Loaded.{IsWholeFile};
    ghost use Rattle.name_offers.specs.inner.Offering.{AreOffered, HasOffered, offers_of_job};

    type Seat = Racer;

    type Piece = ();

    ghost jobs = { λ t. length t.files.now };

    ghost fits = { λ t racer. (racer.race ≡ t.race.now) × AreOffered t.race.now t.names.now t.numbers.now t.files.now };

    ghost ran = { λ t before job _ after. HasOffered (offers_of_job t.names.now t.files.now job) before after };

    #[tactic(auto, using(crate::proofs::OfferLemmas::lists))]
    fn run(&self, seat: &mut Racer, job: u32) {
        let numbers = numbers_at(self.numbers, job as usize);
        offer_file(
            self.race,
            seat,
            self.names,
            &self.files[job as usize],
            numbers,
        );
    }
}

// Offers the words of the candidates of some files.
fn offer_run<R: Threads + Sync, G: Gate + Sync>(
    rt: &R,
    alloc: Global,
    gate: &G,
    racers: Vec<Racer>,
    offering: &Offering,
) -> Result<Vec<Racer>, OutOfMemory>
    requires racers { (0 < vec_len racers) × (vec_len racers < 2 ^ 32) }
    requires race { All (λ racer. racer.race ≡ offering.now.race.now) racers.items }
    requires jobs { length offering.now.files.now < 2 ^ 32 }
    requires files { AreOffered offering.now.race.now offering.now.names.now offering.now.numbers.now offering.now.files.now }
    ensures offered { IfOk result (λ after. HaveOffered (flat_map (offers_in offering.now.names.now) offering.now.files.now) racers.items after.items) }
    ensures race { IfOk result (λ after. All (λ racer. racer.race ≡ offering.now.race.now) after.items) }
{
    let jobs = offering.files.len() as u32;
    let (racers, _) = fan(rt, alloc, gate, racers, offering, jobs)?;
    Ok(racers)
}

/// Offers the word of each candidate of the files for the number of its name, one job a file, by as many workers as there
/// are racers. Answers the racers, each with the passes that it had; their offers together grew by those of all candidates,
/// once each. On want of memory the racers are given up.
pub fn offer_all<R: Threads + Sync, G: Gate + Sync>(
    rt: &R,
    alloc: Global,
    gate: &G,
    race: &NameRace,
    racers: Vec<Racer>,
    files: &Loaded,
    numbered: &Numbered,
) -> Result<Vec<Racer>, OutOfMemory>
    requires racers { (0 < vec_len racers) × (vec_len racers < 2 ^ 32) }
    requires race { All (λ racer. racer.race ≡ race.now) racers.items }
    requires whole { IsWholeLoaded files.now }
    requires named { AreNamed numbered.now.names files.now.files }
    requires numbers { numbered.now.numbers ≡ numbers_of numbered.now.names files.now.files }
    requires words { length numbered.now.names ≤ length race.now.start }
    ensures race { IfOk result (λ after. map (λ racer. racer.race) after.items ≡ map (λ racer. racer.race) racers.items) }
    ensures passes { IfOk result (λ after. map (λ racer. racer.passes) after.items ≡ map (λ racer. racer.passes) racers.items) }
    ensures offers { IfOk result (λ after. GrewBy (bids_of numbered.now.names files.now.files) racers.items after.items) }
{
    let files = files.files.as_slice();
    let numbers = numbered.numbers.as_slice();
    let mut racers = racers;
    for run in 0..files.len().div_ceil(MOST_JOBS) {
        let rest = &files[run * MOST_JOBS..];
        let some = &rest[..rest.len().min(MOST_JOBS)];
        let their = part(numbers, run * MOST_JOBS, some.len());
        let offering = Offering {
            race,
            names: &numbered.names,
            files: some,
            numbers: their,
        };
        racers = offer_run(rt, alloc, gate, racers, &offering)?;
    }
    Ok(racers)
}
