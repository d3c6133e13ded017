//! The offers of files, one after the other.
ghost use Rattle.std.specs.Prelude.{◌≡◌, ◌<◌, ◌≤◌, ◌^◌, ◌∷◌, [], length, All};
ghost use Rattle.std.specs.List.{flat_map};
ghost use Rattle.mo_types.specs.Loaded.{IsWholeFile};
ghost use Rattle.name_ids.specs.Names.{number_of, numbers_in, numbers_of};
ghost use Rattle.race_core.specs.Run.{run};
ghost use Rattle.name_offers.specs.inner.Offering.{offers_at, offers_in};

use mo_types::{LoadedFile, Symbol};
use name_ids::{NameTable, NumberList, number_at, numbers_at};

// Offers the word of a file's symbol, where it is a candidate.
#[tactic(auto, using(crate::proofs::PlainLemmas::symbols))]
fn offer_symbol(
    words: &mut [u64],
    names: &NameTable,
    file: &LoadedFile,
    index: u32,
    number: u32,
    symbol: &Symbol,
)
    requires words { length names.now ≤ length words.old }
    requires member { file.now.id.member < 2 ^ 20 }
    requires index { index < 2 ^ 24 }
    requires number { number ≡ number_of names.now symbol.now }
    ensures { words.new ≡ run words.old (offers_at names.now file.now ((index, symbol.now) ∷ [])) }
{
    if !file.object.is_candidate(symbol) {
        return;
    }
    if let Some(id) = names.id_of_number(number) {
        let place = &mut words[id as usize];
        *place = (*place).min(file.id.word_of(index, symbol));
    }
}

// Offers the words of a file's candidates.
#[tactic(auto, using(crate::proofs::PlainLemmas::files))]
fn offer_file(words: &mut [u64], names: &NameTable, file: &LoadedFile, numbers: &[u32])
    requires words { length names.now ≤ length words.old }
    requires member { file.now.id.member < 2 ^ 20 }
    requires symbols { length file.now.object.symbols < 2 ^ 24 }
    requires numbers { numbers.now ≡ numbers_in names.now file.now }
    ensures { words.new ≡ run words.old (offers_in names.now file.now) }
{
    for (i, symbol) in file.object.symbols.as_slice().iter().enumerate() {
        offer_symbol(words, names, file, i as u32, number_at(numbers, i), symbol);
    }
}

/// Offers the words of the candidates of files.
#[tactic(auto, using(crate::proofs::PlainLemmas::lists))]
pub(crate) fn offer_files(
    words: &mut [u64],
    names: &NameTable,
    files: &[LoadedFile],
    lists: &[NumberList],
)
    requires words { length names.now ≤ length words.old }
    requires whole { All IsWholeFile files.now }
    requires numbers { lists.now ≡ numbers_of names.now files.now }
    ensures { words.new ≡ run words.old (flat_map (offers_in names.now) files.now) }
{
    for (i, file) in files.iter().enumerate() {
        offer_file(words, names, file, numbers_at(lists, i));
    }
}
