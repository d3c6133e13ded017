//! The race of names.
ghost use Rattle.std.specs.Prelude.{◌≡◌, IfOk};
ghost use Rattle.mo_types.specs.Loaded.{IsWholeLoaded};
ghost use Rattle.name_ids.specs.Names.{numbers_of};
ghost use Rattle.symbol_winners.specs.Found.{AreNamed};
ghost use Rattle.symbol_winners.specs.Winners.{AreLeast};

use mo_outside::Gate;
use mo_types::OutOfMemory;
use name_ids::NamedFiles;
use name_offers::race_words;
use std::alloc::Global;
use std::thread::Threads;

// The word of a name without a candidate.
const NO_WORD: u64 = u64::MAX;

/// The least word of the candidates of each name, by a race of the workers. Without names none is run.
pub(crate) fn raced_words<R: Threads + Sync, G: Gate + Sync>(
    rt: &R,
    alloc: Global,
    gate: &G,
    threads: u32,
    named: &NamedFiles,
) -> Result<Vec<u64>, OutOfMemory>
    requires whole { IsWholeLoaded named.now.loaded }
    requires named { AreNamed named.now.numbered.names named.now.loaded.files }
    requires numbers { named.now.numbered.numbers ≡ numbers_of named.now.numbered.names named.now.loaded.files }
    ensures { IfOk result (λ words. AreLeast named.now.loaded.files named.now.numbered.names words.items) }
{
    let NamedFiles { loaded, numbered } = named;
    let many = numbered.names.len() as usize;
    if many == 0 {
        return Ok(Vec::new(alloc));
    }
    let start = vec![in alloc; NO_WORD; many]?;
    race_words(rt, alloc, gate, threads, start, loaded, numbered)
}
