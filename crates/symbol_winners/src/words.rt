//! The words that the candidates of names settle on.
ghost use Rattle.std.specs.Prelude.{◌≡◌, IfOk};
ghost use Rattle.std.specs.List.{filter_map};
ghost use Rattle.mo_types.specs.Loaded.{IsWholeLoaded};
ghost use Rattle.name_ids.specs.Names.{numbers_of};
ghost use Rattle.symbol_winners.specs.Winners.{AreLeast, found_word};
ghost use Rattle.symbol_winners.specs.inner.Best.{AreCandidates, IsCandidateOf};
ghost use Rattle.symbol_winners.specs.inner.Numbers.{AreNumbered};
ghost use Rattle.symbol_winners.specs.inner.Tables.{found_of};
ghost use Rattle.symbol_winners.specs.inner.Words.{offer_by, offer_of};

use crate::found::{FoundIn, candidates};
use mo_types::{Items, Loaded, OutOfMemory};
use name_ids::{NameTable, NumberList};
use race_core::{Offer, replay};
use std::alloc::Global;

// A candidate's offer for the name of a number.
fn offer(candidate: FoundIn, name: u32) -> Offer
    requires { IsCandidateOf (found_of candidate) }
    ensures { result ≡ offer_by candidate.entry name }
{
    Offer {
        worker: 0,
        name,
        word: candidate.file.id.word_of(candidate.index, candidate.symbol),
    }
}

// The offers of some candidates for their names.
fn offers_of(alloc: Global, names: &NameTable, found: &[FoundIn]) -> Result<Vec<Offer>, OutOfMemory>
    requires candidates { AreCandidates found.now }
    requires numbered { AreNumbered names.now found.now }
    ensures { IfOk result (λ offers. offers.items ≡ filter_map (offer_of names.now) found.now) }
{
    let mut offers = Vec::with_capacity(alloc, found.len())?;
    for candidate in found {
        if let Some(name) = names.id_of_number(candidate.number) {
            offers.push(offer(*candidate, name))?;
        }
    }
    Ok(offers)
}

/// The least word of the candidates of each name, by its number: the words of a race to which the files' candidates are
/// offered one after the other.
pub fn least_words(
    alloc: Global,
    loaded: &Loaded,
    names: &NameTable,
    numbers: &Items<NumberList>,
) -> Result<Vec<u64>, OutOfMemory>
    requires whole { IsWholeLoaded loaded.now }
    requires numbers { numbers.now ≡ numbers_of names.now loaded.now.files }
    ensures { IfOk result (λ words. AreLeast loaded.now.files names.now words.items) }
{
    let found = candidates(alloc, loaded.files.as_slice(), numbers)?;
    let offers = offers_of(alloc, names, found.as_slice())?;
    let mut words = vec![in alloc; u64::MAX; names.len() as usize]?;
    replay(words.as_mut_slice(), offers.as_slice());
    Ok(words)
}
