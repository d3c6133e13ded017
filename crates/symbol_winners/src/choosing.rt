//! The winners of all names.
ghost use Rattle.std.specs.Prelude.{◌≡◌, ◌≤◌, ◌<◌, ◌++◌, ◌∷◌, ℕ, [], List, Some, All, IfOk, length, map, position};
ghost use Rattle.std.specs.List.{AllByRecursion};
ghost use Rattle.std.specs.Str.{bytes_eq};
ghost use Rattle.command_line.specs.declared.command.Command.{Command as Commanded};
ghost use Rattle.mo_types.specs.Loaded.{IsWholeFile};
ghost use Rattle.mo_types.specs.declared.loaded.LoadedFile.{LoadedFile as Loads};
ghost use Rattle.name_ids.specs.Names.{IsNumbering, numbers_in, numbers_of};
ghost use Rattle.symbol_winners.specs.Found.{FileCandidate, found, found_in};
ghost use Rattle.symbol_winners.specs.Places as places;
ghost use Rattle.symbol_winners.specs.Winners as winners;
ghost use Rattle.symbol_winners.specs.Winners.{AreLeast};
ghost use Rattle.symbol_winners.specs.declared.found.FoundIn.{FoundIn as Held};
ghost use Rattle.symbol_winners.specs.inner.Best.{AreBests, AreChosen, HasBests, IsCandidateOf, candidate_wins, winner_chosen};
ghost use Rattle.symbol_winners.specs.inner.Index.{AreRules, IsIndexOf};
ghost use Rattle.symbol_winners.specs.inner.Numbers.{IsListed, IsNumbered};
ghost use Rattle.symbol_winners.specs.inner.Tables.{found_of};

use crate::best::Best;
use crate::chosen::Chosen;
use crate::exports::{ExportRules, is_exported};
use crate::found::FoundIn;
use crate::name_index::NameIndex;
use crate::places::{Place, place_of};
use crate::winner::Winner;
use mo_types::{AtomKey, Items, LoadedFile, OutOfMemory};
use name_ids::{NameTable, NumberList, number_at, numbers_at};
use std::alloc::Global;

// Whether a candidate has the least word of its name, by the name's number.
#[tactic(auto, using(crate::proofs::TableSteps::word_at))]
fn wins(words: &[u64], id: u32, candidate: FoundIn) -> bool
    requires words { id < length words.now }
    requires candidate { IsCandidateOf (found_of candidate) }
    ensures { (files : List Loads) (names : List (List ℕ)) → AreLeast files names words.now
        → position (bytes_eq candidate.entry.symbol.now.name) names ≡ Some id → result ≡ candidate_wins files candidate.entry }
{
    candidate.file.id.word_of(candidate.index, candidate.symbol) == words[id as usize]
}

// Notes a candidate of a name.
fn note<'a>(table: &mut Vec<Best<'a>>, names: &NameTable, words: &[u64], candidate: FoundIn<'a>)
    requires numbering { IsNumbering names.now }
    requires table { length table.old.items ≡ length names.now }
    requires words { length words.now ≡ length names.now }
    requires candidate { IsCandidateOf (found_of candidate) }
    requires numbered { IsNumbered names.now candidate }
    ensures size { length table.new.items ≡ length table.old.items }
    ensures bests { (files : List Loads) (fs : List Held) → AreLeast files names.now words.now
        → AreBests files names.now fs table.old.items → AreBests files names.now (fs ++ candidate.entry ∷ []) table.new.items }
{
    if let Some(id) = names.id_of_number(candidate.number) {
        let wins = wins(words, id, candidate);
        let place = &mut table[id as usize];
        *place = place.with(candidate, wins);
    }
}

// Notes the candidates of a file, whose names have these numbers.
#[tactic(auto, using(crate::proofs::UntilLemmas::bests_noted))]
fn note_file<'a>(
    table: &mut Vec<Best<'a>>,
    names: &NameTable,
    words: &[u64],
    file: &'a LoadedFile,
    numbers: &[u32],
)
    requires whole { IsWholeFile file.now }
    requires numbering { IsNumbering names.now }
    requires table { length table.old.items ≡ length names.now }
    requires words { length words.now ≡ length names.now }
    requires numbers { numbers.now ≡ numbers_in names.now file.now }
    ensures size { length table.new.items ≡ length table.old.items }
    ensures bests { (files : List Loads) (all : List FileCandidate) → AreLeast files names.now words.now
        → HasBests files names.now all table.old.items → HasBests files names.now (all ++ found_in file.now) table.new.items }
{
    for (i, symbol) in file.object.symbols.as_slice().iter().enumerate() {
        if file.object.is_candidate(symbol) {
            let candidate = FoundIn {
                file,
                index: i as u32,
                number: number_at(numbers, i),
                symbol,
            };
            note(table, names, words, candidate);
        }
    }
}

/// What is held of the candidates of each name, by its number.
#[tactic(auto, using(crate::proofs::UntilLemmas::bests_noted))]
pub(crate) fn bests_of<'a>(
    alloc: Global,
    names: &NameTable,
    words: &[u64],
    files: &'a [LoadedFile],
    numbers: &Items<NumberList>,
) -> Result<Vec<Best<'a>>, OutOfMemory>
    requires whole { All IsWholeFile files.now }
    requires words { length words.now ≡ length names.now }
    requires numbers { numbers.now ≡ numbers_of names.now files.now }
    ensures bests { IfOk result (λ table. (loaded : List Loads) → AreLeast loaded names.now words.now
        → HasBests loaded names.now (found files.now) table.items) }
    ensures numbering { IsNumbering names.now }
{
    let lists = numbers.as_slice();
    let mut table = vec![in alloc; Best::none(); names.len() as usize]?;
    for (i, file) in files.iter().enumerate() {
        note_file(&mut table, names, words, file, numbers_at(lists, i));
    }
    Ok(table)
}

// Where a candidate stands.
fn place(found: FoundIn) -> Place
    requires { IsCandidateOf (found_of found) }
    ensures { Some result ≡ places.place_of found.entry.file.now found.entry.index found.entry.symbol.now.kind }
{
    match place_of(found.file, found.index) {
        Some(place) => place,
        None => Place {
            atom: AtomKey {
                file: found.file.id,
                section: 0,
                offset: 0,
            },
            offset: 0,
        },
    }
}

// A candidate as the winner.
fn winner(chosen: &Chosen, rules: &ExportRules) -> Result<Winner, OutOfMemory>
    requires { IsCandidateOf (found_of chosen.now.found) }
    ensures { IfOk result (λ winner. (command : Commanded) → AreRules command rules.now → Some winner ≡ winner_chosen command chosen.now) }
{
    let FoundIn {
        file,
        index,
        symbol,
        ..
    } = chosen.found;
    let common = symbol.kind.is_common();
    let place = place(chosen.found);
    Ok(Winner {
        name: symbol.name.clone()?,
        word: file.id.word_of(index, symbol),
        file: file.id,
        atom: place.atom,
        offset: place.offset,
        size: if common { chosen.size } else { 0 },
        align: if common { chosen.align } else { 0 },
        weak: symbol.strength() == 1,
        exported: is_exported(rules, symbol),
    })
}

/// The winners, in the order of the winning candidates.
pub(crate) fn winners_of(
    alloc: Global,
    chosen: &[Chosen],
    rules: &ExportRules,
) -> Result<Vec<Winner>, OutOfMemory>
    requires { AreChosen chosen.now }
    ensures { IfOk result (λ list. (command : Commanded) → AreRules command rules.now → map Some list.items ≡ map (winner_chosen command) chosen.now) }
{
    let mut list = Vec::with_capacity(alloc, chosen.len())?;
    for one in chosen {
        list.push(winner(one, rules)?)?;
    }
    Ok(list)
}

/// The places of the winning candidates, by the numbers of their names.
pub(crate) fn index_of<'a>(
    alloc: Global,
    names: &'a NameTable,
    chosen: &[Chosen],
) -> Result<NameIndex<'a>, OutOfMemory>
    requires numbering { IsNumbering names.now }
    requires listed { AllByRecursion (λ one. IsListed names.now one.found) chosen.now }
    requires few { length chosen.now ≤ length names.now }
    ensures index { IfOk result (IsIndexOf chosen.now (length chosen.now)) }
    ensures names { IfOk result (λ index. index.names.now ≡ names.entry.now) }
{
    let mut index = NameIndex::new(alloc, names)?;
    for (i, one) in chosen.iter().enumerate() {
        index.put(one.found.number, i);
    }
    Ok(index)
}
