//! The running race of names, for racers in threads of their own.
//!
//! This crate is the same race for racers in threads of their own. Between any two atomic steps the words are those
//! that the offers of all racers leave. `offer` (one fetch-min) and `least` (one load) answer a word at most the start
//! and at most everything that the racer knew for the name; `split` and `join` move passes, offers and knowledge
//! exactly; `settle` writes exactly what `race_core` gives for all offers. After `begin` no call waits, takes memory
//! or refuses. Nothing is claimed of speed, of order between racers, or that a racer sees an offer it wasn't told of.
//! What contracts see of a race and its racers stands in `specs/Race.antt`, and the rule that all atomic steps keep in
//! `specs/Rule.antt`.
//!
//! Their contracts refuse a body in which the first offer for a name stays, one that gives up the offers of a racer
//! that is joined, one whose `least` answers 0, and one that keeps what stood where words are to be written.
#![tactic(auto)]

ghost use Rattle.std.specs.Prelude.{◌≡◌, ℕ, ◌+◌, ◌-◌, ◌<◌, ◌≤◌, [], ◌∷◌, ◌++◌, length, slice_index, Contains, IfOk};
ghost use Rattle.std.specs.Mem.Slots.{IsFull, slots_items, slots_len};
ghost use Rattle.race_core.specs.Run.{run};

mod rule;

use crate::rule::{Cut, Law, Looks, Merge, Offers, Share, Terms, View};
use atomic_table::{Closed, Seat, Table};
use mo_types::OutOfMemory;
use std::alloc::Global;
use std::marker::{Brand, Model};

/// A race. Contracts see which it is, the words at the start, and how many passes its racers have together.
#[derive(Drop)]
pub struct NameRace {
    table: Table<(), View, Terms, Law, Global>,
}

impl Model for NameRace {
    ghost use Rattle.std.specs.Prelude.{◌≡◌, ◌<◌, length};
    ghost use Rattle.name_race.specs.Race.{Race};

    ghost Value = { Race };

    ghost view = { λ r. record { id = r.table.shared.table_id; start = r.table.shared.key.start.items; passes = r.table.shared.key.passes } };

    ghost invariant = { λ r. (r.table.shared.table_id.slots ≡ 0)
        × (r.table.shared.table_id.words ≡ length r.table.shared.key.start.items) × (0 < length r.table.shared.key.start.items) };
}

/// A racer. Contracts see its race, its passes, what it offered or took over, and the words that it knows.
/// One that is dropped takes its passes with it, and its race can't be settled any more.
#[derive(Drop)]
pub struct Racer {
    seat: Seat<(), View>,
}

impl Model for Racer {
    ghost use Rattle.std.specs.Prelude.{◌≡◌, ◌<◌, []};
    ghost use Rattle.name_race.specs.Race.{Holding};

    ghost Value = { Holding };

    ghost view = { λ r. record {
      race = record { id = r.seat.table_id; start = r.seat.me.0.start; passes = r.seat.me.0.all_passes };
      passes = r.seat.me.0.passes;
      offers = r.seat.me.0.offers;
      known = r.seat.me.0.known;
    } };

    ghost invariant = { λ r. (r.seat.me.1 ≡ []) × (0 < r.seat.me.0.passes) };
}

impl NameRace {
    /// Opens a race with these words, and a racer with all its passes.
    pub fn begin(
        alloc: Global,
        start: Vec<u64>,
        passes: u64,
    ) -> Result<(NameRace, Racer), OutOfMemory>
        requires names { 0 < length start.items }
        requires passes { 0 < passes }
        ensures race { IfOk result (λ r. (r.0.start ≡ start.items) × (r.0.passes ≡ passes)) }
        ensures racer { IfOk result (λ r. r.1 ≡ record { race = r.0; passes = passes; offers = []; known = [] }) }
    {
        let terms = Terms { start, passes };
        let (table, seat) = Table::of_words(alloc, terms.start.as_slice(), &terms)?;
        Ok((NameRace { table }, Racer { seat }))
    }

    /// Gives passes to a new racer, which knows all that the old one knows and has made no offers.
    pub fn split(&self, racer: &mut Racer, passes: u64) -> Racer
        requires racer { racer.old.race ≡ self.now }
        requires passes { (0 < passes) × (passes < racer.old.passes) }
        ensures old { racer.new ≡ record racer.old { passes = racer.old.passes - passes } }
        ensures new { result ≡ record racer.old { passes = passes; offers = [] } }
    {
        split_as::<Brand>(self, racer, passes)
    }

    /// Takes in another racer: its passes, its offers and all that it knows.
    pub fn join(&self, racer: &mut Racer, other: Racer)
        requires racer { racer.old.race ≡ self.now }
        requires other { other.race ≡ self.now }
        ensures { racer.new ≡ record racer.old {
          passes = racer.old.passes + other.passes;
          offers = racer.old.offers ++ other.offers;
          known = racer.old.known ++ other.known;
        } }
    {
        self.table
            .shared
            .join_seat::<Merge>(&mut racer.seat, other.seat);
    }

    /// Offers a word for a name, in one atomic step. Answers the word that stood there.
    pub fn offer(&self, racer: &mut Racer, name: u32, word: u64) -> u64
        requires racer { racer.old.race ≡ self.now }
        requires name { name < length self.now.start }
        ensures at_start { result ≤ slice_index self.now.start name }
        ensures known { (seen : ℕ) → Contains racer.old.known (name, seen) → result ≤ seen }
        ensures racer { racer.new ≡ record racer.old {
          offers = racer.old.offers ++ (name, word) ∷ [];
          known = racer.old.known ++ (name, result) ∷ (name, word) ∷ [];
        } }
    {
        self.table
            .shared
            .fetch_min::<Offers>(&mut racer.seat, name as usize, word)
    }

    /// The word of a name, by one atomic load.
    pub fn least(&self, racer: &mut Racer, name: u32) -> u64
        requires racer { racer.old.race ≡ self.now }
        requires name { name < length self.now.start }
        ensures at_start { result ≤ slice_index self.now.start name }
        ensures known { (seen : ℕ) → Contains racer.old.known (name, seen) → result ≤ seen }
        ensures racer { racer.new ≡ record racer.old { known = racer.old.known ++ (name, result) ∷ [] } }
    {
        self.table
            .shared
            .load::<Looks>(&mut racer.seat, name as usize)
    }

    /// Ends the race with the racer that has all passes, and writes the word of each name.
    pub fn settle(self, racer: Racer, into: &mut [u64])
        requires racer { racer.race ≡ self }
        requires passes { racer.passes ≡ self.passes }
        requires places { length into.old ≡ length self.start }
        ensures words { into.new ≡ run self.start racer.offers }
        ensures known { (name seen : ℕ) → Contains racer.known (name, seen) → slice_index into.new name ≤ seen }
    {
        let closed = self.table.close_with(racer.seat);
        copy_words(&closed, into);
        closed.free();
    }
}

// Gives away as many passes as the caller picks for `J`.
fn split_as<J: Share>(race: &NameRace, racer: &mut Racer, passes: u64) -> Racer
    requires count { passes ≡ J.count }
    requires racer { racer.old.race ≡ race.now }
    requires passes { (0 < passes) × (passes < racer.old.passes) }
    ensures old { racer.new ≡ record racer.old { passes = racer.old.passes - passes } }
    ensures new { result ≡ record racer.old { passes = passes; offers = [] } }
{
    Racer {
        seat: race.table.shared.split_seat::<Cut<J>>(&mut racer.seat),
    }
}

// Writes the words of a table that has ended.
#[tactic(auto, using(crate::proofs::Words::copying))]
fn copy_words(closed: &Closed<(), Global>, into: &mut [u64])
    requires full { IsFull closed.now.words }
    requires places { length into.old ≡ slots_len closed.now.words }
    ensures { into.new ≡ slots_items closed.now.words }
{
    for (i, place) in into.iter_mut().enumerate() {
        *place = closed.word(i);
    }
}
