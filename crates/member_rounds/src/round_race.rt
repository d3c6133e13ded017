//! What is known of names between two rounds, and the race by which a round's files join it.
ghost use Rattle.std.specs.Prelude.{◌≡◌, ◌≤◌, ◌++◌, [], length, false, IfOk};
ghost use Rattle.mo_types.specs.Candidates.{no_word};
ghost use Rattle.mo_types.specs.Loaded.{IsWholeLoaded};
ghost use Rattle.name_ids.specs.Names.{numbers_of};
ghost use Rattle.race_core.specs.Run.{run};
ghost use Rattle.symbol_winners.specs.Found.{AreNamed};
ghost use Rattle.name_offers.specs.Offers.{bids_of};
ghost use Rattle.member_rounds.specs.inner.Racing.{padded};

use crate::asking::NO_WORD;
use mo_outside::Gate;
use mo_types::{Loaded, OutOfMemory};
use name_ids::Numbered;
use name_offers::words_after;
use std::alloc::Global;
use std::thread::Threads;

/// What is known of names between two rounds, by their numbers.
#[derive(Drop)]
pub(crate) struct Asking {
    /// The least word of the candidates of each name, `NO_WORD` where it has none.
    pub(crate) words: Vec<u64>,
    /// Whether each name has asked.
    pub(crate) asked: Vec<bool>,
}

impl Asking {
    /// Nothing of no names, without taking memory.
    pub(crate) fn new(alloc: Global) -> Asking
        ensures words { result.words.items ≡ [] }
        ensures asked { result.asked.items ≡ [] }
    {
        Asking {
            words: Vec::new(alloc),
            asked: Vec::new(alloc),
        }
    }

    /// With the offers of the files of a round, by so many workers: a race whose start is the last round's words, without
    /// one for new names, none of which has asked.
    pub(crate) fn raced<R: Threads + Sync, G: Gate + Sync>(
        self,
        rt: &R,
        alloc: Global,
        gate: &G,
        workers: u32,
        files: &Loaded,
        numbered: &Numbered,
    ) -> Result<Asking, OutOfMemory>
        requires whole { IsWholeLoaded files.now }
        requires named { AreNamed numbered.now.names files.now.files }
        requires numbers { numbered.now.numbers ≡ numbers_of numbered.now.names files.now.files }
        ensures words { IfOk result (λ next. next.words.items ≡ run (padded (length numbered.now.names) no_word self.words.items) (bids_of numbered.now.names files.now.files)) }
        ensures asked { IfOk result (λ next. next.asked.items ≡ padded (length numbered.now.names) false self.asked.items) }
    {
        let Asking {
            mut words,
            mut asked,
        } = self;
        let count = numbered.names.len() as usize;
        words.resize(count, NO_WORD)?;
        asked.resize(count, false)?;
        let words = words_after(rt, alloc, gate, workers, words, files, numbered)?;
        Ok(Asking { words, asked })
    }
}
