//! A race of the names of files by two workers.
ghost use Rattle.std.specs.Prelude.{◌≡◌, ◌<◌, length};
ghost use Rattle.mo_types.specs.Loaded.{IsWholeLoaded};
ghost use Rattle.name_ids.specs.Names.{numbers_of};
ghost use Rattle.symbol_winners.specs.Found.{AreNamed};

use mo_outside::Gate;
use mo_types::{Loaded, NameList, OutOfMemory};
use name_ids::{Numbered, gather};
use name_offers::race_words;
use std::alloc::Global;
use std::thread::Threads;
use symbol_winners::candidates_have_numbers;

// The word of a name without a candidate.
const NO_WORD: u64 = u64::MAX;

// The words of names after the race: the workers offer those of all candidates.
fn words_of<R: Threads + Sync, G: Gate + Sync>(
    rt: &R,
    alloc: Global,
    gate: &G,
    loaded: &Loaded,
    all: &Numbered,
) -> Result<Vec<u64>, OutOfMemory>
    requires whole { IsWholeLoaded loaded.now }
    requires named { AreNamed all.now.names loaded.now.files }
    requires numbers { all.now.numbers ≡ numbers_of all.now.names loaded.now.files }
    requires some { 0 < length all.now.names }
{
    let start = vec![in alloc; NO_WORD; all.names.len() as usize]?;
    race_words(rt, alloc, gate, 2, start, loaded, all)
}

/// The word of a name after a race of the candidates of files, in which the workers pass a gate; `None` where no external
/// symbol has the name.
pub fn word_of<R: Threads + Sync, G: Gate + Sync>(
    rt: &R,
    alloc: Global,
    gate: &G,
    loaded: &Loaded,
    name: &[u8],
) -> Result<Option<u64>, OutOfMemory>
    requires whole { IsWholeLoaded loaded.now }
{
    let extra = NameList::new(alloc);
    let Ok(all) = gather(alloc, loaded, &extra) else {
        return Ok(None);
    };
    candidates_have_numbers();
    let Some(id) = all.names.id_of(name) else {
        return Ok(None);
    };
    let words = words_of(rt, alloc, gate, loaded, &all)?;
    Ok(words.get(id as usize).copied())
}
