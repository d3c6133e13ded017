//! The files that a link loads, round by round.
ghost use Rattle.std.specs.Prelude.{◌≡◌, ◌+◌, ◌^◌, ◌<◌, ◌&&◌, [], ℕ, List, length, not, true, All, IfErr, IfOk, Err, Ok};
ghost use Rattle.std.specs.List.Sorted.{IsStrictlySortedBy};
ghost use Rattle.mo_types.specs.Keys.{compare_files};
ghost use Rattle.mo_types.specs.Loaded.{IsWholeLoaded};
ghost use Rattle.mo_types.specs.declared.key.FileId.{FileId};
ghost use Rattle.name_ids.specs.Names.{AreNames, numbers_of};
ghost use Rattle.symbol_winners.specs.Found.{AreNamed};
ghost use Rattle.lib_bind.specs.declared.library.LibraryGraph.{LibraryGraph};
ghost use Rattle.input_files.specs.Files as files;
ghost use Rattle.input_files.specs.Files.{IsLow, IsLoadFault};
ghost use Rattle.input_files.specs.Sources.{AreInOrder, AreObjects, inputs_of};
ghost use Rattle.member_rounds.specs.Growth.{is_in};
ghost use Rattle.member_rounds.specs.Rounds.{loaded_of};
ghost use Rattle.member_rounds.specs.inner.Linking.{HaveRoundAsked, IsAsking, IsLinkAt, IsLinkBy, IsReadBy, HasEnded, IsDoneBy, loaded_by};

use crate::asking::{Known, Requests, ask_all};
use crate::first_reading::read_first;
use crate::id_set::IdSet;
use crate::in_order::{in_order_with, with_files, with_numbers};
use crate::naming::{first_names_at, name_files};
use crate::offer_index::OfferIndex;
use crate::round_race::Asking;
use crate::round_reading::read_all;
use crate::round_rules::RoundRules;
use crate::taking::{left_of, take_next};
use input_files::{Inputs, LoadFault, Source, all_ids, first_ids};
use lib_bind::Libraries;
use mo_outside::Gate;
use mo_types::{Bytes, FileId, Items, Loaded, LoadedFile, LoadedList, NameList, OutOfMemory};
use name_ids::{NameTable, NamedFiles, Numbered};
use std::alloc::Global;
use std::thread::Threads;

/// A link between two rounds.
#[derive(Drop)]
pub(crate) struct Link {
    /// The rounds that are done.
    pub(crate) rounds: usize,
    /// The files that they brought, round by round.
    pub(crate) kept: Loaded,
    /// All names so far, and the numbers of these files' symbols.
    pub(crate) numbered: Numbered,
    /// What is known of the names, where an archive offers anything.
    pub(crate) asking: Option<Asking>,
    /// The files for which no name has asked.
    pub(crate) left: IdSet,
    /// The files of the next round, by rising id.
    pub(crate) new: Vec<FileId>,
}

/// The files of a round, with the numbers of their symbols among all names so far, and the names of the command line that ask
/// with theirs.
#[derive(Drop)]
pub(crate) struct Round<'a> {
    pub(crate) files: &'a Loaded,
    pub(crate) numbered: &'a Numbered,
    pub(crate) names: &'a [Bytes],
}

// The files that are left of some without others.
fn left_at(alloc: Global, all: &[FileId], new: &Vec<FileId>) -> Result<IdSet, OutOfMemory>
    ensures { IfOk result (λ left. (id : FileId) → is_in left id ≡ (is_in all.now id && not (is_in new.now.items id))) }
{
    left_of(alloc, all, new.as_slice())
}

// What is known of no names, where an archive offers anything.
fn first_asking(alloc: Global, offers: &OfferIndex) -> Option<Asking>
    ensures { IsAsking offers.now [] [] result }
{
    if offers.is_empty() {
        return None;
    }
    Some(Asking::new(alloc))
}

// A link before its first round.
fn begin(alloc: Global, offers: &OfferIndex, all: &[FileId]) -> Result<Link, OutOfMemory>
    requires order { AreInOrder offers.now }
    requires all { all.now ≡ files.all_ids offers.now }
    ensures rounds { IfOk result (λ link. link.rounds ≡ 0) }
    ensures link { IfOk result (λ link. (libs : LibraryGraph) (wanted : List (List ℕ)) → IsLinkAt offers.now libs wanted link) }
{
    let new = first_ids(alloc, offers.sources(), all)?;
    let left = left_at(alloc, all, &new)?;
    let numbered = Numbered {
        names: NameTable::new(alloc),
        numbers: Items::new(alloc),
    };
    Ok(Link {
        rounds: 0,
        kept: Loaded {
            files: LoadedList::new(alloc),
        },
        numbered,
        asking: first_asking(alloc, offers),
        left,
        new,
    })
}

// What is known of names after a round's files offered their words and their names asked, and the files for which these ask.
fn ask_round<R: Threads + Sync, G: Gate + Sync>(
    rt: &R,
    alloc: Global,
    gate: &G,
    workers: u32,
    rules: &RoundRules,
    asking: Option<Asking>,
    round: &Round,
) -> Result<(Option<Asking>, Vec<FileId>), OutOfMemory>
    requires whole { IsWholeLoaded round.now.files.now }
    requires named { AreNamed round.now.numbered.now.names round.now.files.now.files }
    requires numbers { round.now.numbered.now.numbers ≡ numbers_of round.now.numbered.now.names round.now.files.now.files }
    ensures { IfOk result (λ after. HaveRoundAsked rules.now round.now asking after.0 after.1.items) }
{
    match asking {
        Some(asking) => {
            let files = round.files;
            let numbered = round.numbered;
            let Asking { words, asked } = asking.raced(rt, alloc, gate, workers, files, numbered)?;
            let known = Known {
                names: &numbered.names,
                words: words.as_slice(),
            };
            let lists = numbered.numbers.as_slice();
            let Requests { ids, asked } = ask_all(
                alloc,
                rules,
                &known,
                asked,
                files.files.as_slice(),
                lists,
                round.names,
            )?;
            Ok((Some(Asking { words, asked }), ids))
        }
        None => Ok((None, Vec::new(alloc))),
    }
}

// What is left without the files that are asked for, and those of them that were left, by rising id.
fn take_new(
    alloc: Global,
    left: IdSet,
    asked: Vec<FileId>,
) -> Result<(IdSet, Vec<FileId>), OutOfMemory>
    ensures left { IfOk result (λ r. (id : FileId) → is_in r.0 id ≡ (is_in left id && not (is_in asked.items id))) }
    ensures rises { IfOk result (λ r. IsStrictlySortedBy compare_files r.1.items) }
    ensures taken { IfOk result (λ r. (id : FileId) → is_in r.1.items id ≡ (is_in left id && is_in asked.items id)) }
{
    take_next(alloc, left, asked.as_slice())
}

// The position of a file's input.
fn position_of(file: &LoadedFile) -> u16
    ensures { result ≡ file.now.id.position }
{
    file.id.position
}

// Positions have 16 bits, as their type tells.
#[tactic(auto, using(crate::proofs::WordLemmas::positions))]
fn positions_fit(files: &[LoadedFile])
    ensures { All (λ file. file.id.position < 2 ^ 16) files.now }
{
    for file in files {
        let _position = position_of(file);
    }
}

// A link after one round more, whose files were read: they join all at once, and then their names ask.
fn join_round<R: Threads + Sync, G: Gate + Sync>(
    rt: &R,
    alloc: Global,
    gate: &G,
    workers: u32,
    rules: &RoundRules,
    link: Link,
    read: LoadedList,
) -> Result<Link, LoadFault>
    requires read { IsReadBy rules.now link read }
    requires few { link.rounds < 2 ^ 63 }
    ensures rounds { IfOk result (λ next. next.rounds ≡ link.rounds + 1) }
    ensures link { IfOk result (IsLinkBy rules.now) }
    ensures fault { IfErr result (λ fault. IsLoadFault fault → loaded_by rules.now ≡ Err fault) }
{
    let Link {
        rounds,
        kept,
        numbered,
        asking,
        left,
        new: _,
    } = link;
    positions_fit(read.as_slice());
    let Numbered { names, numbers } = numbered;
    let fresh = name_files(alloc, names, rules.wanted, rounds, read.as_slice())?;
    let read = Loaded { files: read };
    let round = Round {
        files: &read,
        numbered: &fresh,
        names: first_names_at(rules.wanted, rounds),
    };
    let (asking, ids) = ask_round(rt, alloc, gate, workers, rules, asking, &round)?;
    let kept = with_files(kept, read.files)?;
    let numbers = with_numbers(numbers, fresh.numbers)?;
    let (left, new) = take_new(alloc, left, ids)?;
    Ok(Link {
        rounds: rounds + 1,
        kept,
        numbered: Numbered {
            names: fresh.names,
            numbers,
        },
        asking,
        left,
        new,
    })
}

// A link after its first round: the objects, which were read, and the members of forced archives join.
fn first_round<R: Threads + Sync, G: Gate + Sync>(
    rt: &R,
    alloc: Global,
    gate: &G,
    workers: u32,
    rules: &RoundRules,
    objects: LoadedList,
    link: Link,
) -> Result<Link, LoadFault>
    requires objects { AreObjects rules.now.offers objects }
    requires link { IsLinkBy rules.now link }
    requires first { link.rounds ≡ 0 }
    ensures rounds { IfOk result (λ next. next.rounds ≡ 1) }
    ensures link { IfOk result (IsLinkBy rules.now) }
    ensures fault { IfErr result (λ fault. IsLoadFault fault → loaded_by rules.now ≡ Err fault) }
{
    let sources = rules.offers.sources();
    let ids = link.new.as_slice();
    let read = read_first(rt, alloc, gate, workers, sources, objects, ids)?;
    join_round(rt, alloc, gate, workers, rules, link, read)
}

// A link after one round more: its files are read, and join.
fn next_round<R: Threads + Sync, G: Gate + Sync>(
    rt: &R,
    alloc: Global,
    gate: &G,
    workers: u32,
    rules: &RoundRules,
    link: Link,
) -> Result<Link, LoadFault>
    requires link { IsLinkBy rules.now link }
    requires rounds { link.rounds < length (files.all_ids rules.now.offers) + 1 }
    requires few { link.rounds < 2 ^ 63 }
    ensures rounds { IfOk result (λ next. next.rounds ≡ link.rounds + 1) }
    ensures link { IfOk result (IsLinkBy rules.now) }
    ensures fault { IfErr result (λ fault. IsLoadFault fault → loaded_by rules.now ≡ Err fault) }
{
    let sources = rules.offers.sources();
    let read = read_all(rt, alloc, gate, workers, sources, link.new.as_slice())?;
    join_round(rt, alloc, gate, workers, rules, link, read)
}

// Whether the next round has no files.
fn brings_nothing(link: &Link) -> bool
    ensures { result ≡ true → link.now.new.items ≡ [] }
{
    link.new.is_empty()
}

// The files that the rounds brought, by rising id.
fn ended(alloc: Global, link: Link) -> Result<NamedFiles, OutOfMemory>
    ensures { IfOk result (λ named. HasEnded link named) }
{
    let Link {
        kept,
        numbered,
        rounds: _,
        asking: _,
        left: _,
        new: _,
    } = link;
    let Numbered { names, numbers } = numbered;
    let (loaded, numbers) = in_order_with(alloc, kept, numbers)?;
    Ok(NamedFiles {
        loaded,
        numbered: Numbered { names, numbers },
    })
}

// A link whose rounds are done, of which there are no more than this and the first.
fn all_rounds<R: Threads + Sync, G: Gate + Sync>(
    rt: &R,
    alloc: Global,
    gate: &G,
    workers: u32,
    rules: &RoundRules,
    first: Link,
    most: usize,
) -> Result<Link, LoadFault>
    requires link { IsLinkBy rules.now first }
    requires first { first.rounds ≡ 1 }
    requires most { most ≡ length (files.all_ids rules.now.offers) }
    requires few { most < 2 ^ 63 }
    ensures done { IfOk result (IsDoneBy rules.now) }
    ensures fault { IfErr result (λ fault. IsLoadFault fault → loaded_by rules.now ≡ Err fault) }
{
    let mut link = first;
    for round in 0..most {
        if brings_nothing(&link) {
            return Ok(link);
        }
        link = next_round(rt, alloc, gate, workers, rules, link)?;
    }
    Ok(link)
}

/// The files that a link loads, by rising id, each read once by one of so many workers (none count as one), with their names:
/// those of all files and of the command line, each numbered once, and the numbers of the files' symbols. In the first round
/// come the objects, which were read before, and the members of forced archives. In each further one come all members at
/// once for which the names ask that are wanted so far, by files or by the command line, and have no candidate. The rounds
/// end when one brings no file. Refusals come for the first round that has one: the fault of the least of its files that has
/// one, and then that of too many names. The answer is the same for every number of workers.
pub fn load<R: Threads + Sync, G: Gate + Sync>(
    rt: &R,
    alloc: Global,
    gate: &G,
    workers: u32,
    inputs: Inputs,
    libs: &Libraries,
    wanted: &NameList,
) -> Result<NamedFiles, LoadFault>
    ensures files { IfOk result (λ named. loaded_of inputs.inputs libs.now wanted.now ≡ Ok named.loaded) }
    ensures fault { IfErr result (λ fault. IsLoadFault fault → loaded_of inputs.inputs libs.now wanted.now ≡ Err fault) }
    ensures whole { IfOk result (λ named. IsWholeLoaded named.loaded) }
    ensures low { IfOk result (λ named. All IsLow named.loaded.files) }
    ensures names { IfOk result (λ named. AreNames named.loaded.files wanted.now named.numbered.names) }
    ensures numbers { IfOk result (λ named. named.numbered.numbers ≡ numbers_of named.numbered.names named.loaded.files) }
{
    let Inputs { sources, objects } = inputs;
    let sources = sources.as_slice();
    let all = all_ids(alloc, sources)?;
    let offers = OfferIndex::new(alloc, sources)?;
    let link = begin(alloc, &offers, all.as_slice())?;
    let rules = RoundRules {
        offers,
        libs,
        wanted,
    };
    let link = first_round(rt, alloc, gate, workers, &rules, objects, link)?;
    let link = all_rounds(rt, alloc, gate, workers, &rules, link, all.len())?;
    Ok(ended(alloc, link)?)
}
