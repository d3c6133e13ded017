//! The files for which the names of new files ask.
ghost use Rattle.std.specs.Prelude.{◌≡◌, ◌++◌, [], ◌∷◌, length, position, get_or, false, IfOk};
ghost use Rattle.std.specs.List.{flat_map};
ghost use Rattle.std.specs.Str.{bytes_eq};
ghost use Rattle.name_ids.specs.Names.{number_of, numbers_in, numbers_of};
ghost use Rattle.member_rounds.specs.Rounds.{undefined_in};
ghost use Rattle.member_rounds.specs.inner.Asking as asking;
ghost use Rattle.member_rounds.specs.inner.Asking.{HasMarks, HaveThenAsked, marked, option_list, settled_at};
ghost use Rattle.member_rounds.specs.inner.Working.{HaveAsked, undefined_name};

use crate::asked::asked_by;
use crate::offer_index::OfferIndex;
use crate::round_rules::RoundRules;
use lib_bind::Libraries;
use mo_types::{Bytes, FileId, LoadedFile, OutOfMemory, Symbol};
use name_ids::{NameTable, NumberList, number_at, numbers_at};
use std::alloc::Global;

/// The word of a name without a candidate.
pub(crate) const NO_WORD: u64 = u64::MAX;

/// The names so far, and the least word of the candidates of each, by its number.
#[derive(Drop)]
pub(crate) struct Known<'a> {
    pub(crate) names: &'a NameTable,
    pub(crate) words: &'a [u64],
}

/// What names have asked for.
#[derive(Drop)]
pub(crate) struct Requests {
    /// The files.
    pub(crate) ids: Vec<FileId>,
    /// Whether the name of each number has asked.
    pub(crate) asked: Vec<bool>,
}

// Whether the name of a number needn't ask: it has a candidate or has asked.
fn is_settled(words: &[u64], asked: &[bool], id: Option<u32>) -> bool
    ensures { result ≡ settled_at words.now asked.now id }
{
    match id {
        Some(id) => word_at(words, id) != NO_WORD || mark_at(asked, id),
        None => false,
    }
}

// The word of a number.
fn word_at(words: &[u64], id: u32) -> u64
    ensures { result ≡ get_or words.now id 0xffff_ffff_ffff_ffff }
{
    match words.get(id as usize) {
        Some(word) => *word,
        None => NO_WORD,
    }
}

// The mark of a number.
fn mark_at(asked: &[bool], id: u32) -> bool
    ensures { result ≡ get_or asked.now id false }
{
    match asked.get(id as usize) {
        Some(mark) => *mark,
        None => false,
    }
}

// With the mark of a name that has a number.
fn with_mark(before: Vec<bool>, id: Option<u32>) -> Vec<bool>
    ensures { result.items ≡ marked before.items id }
{
    let mut asked = before;
    if let Some(id) = id {
        if let Some(mark) = asked.get_mut(id as usize) {
            *mark = true;
        }
    }
    asked
}

// With a file, where there is one.
fn with_file(before: Vec<FileId>, file: Option<FileId>) -> Result<Vec<FileId>, OutOfMemory>
    ensures { IfOk result (λ ids. ids.items ≡ before.items ++ option_list file) }
{
    let mut ids = before;
    if let Some(file) = file {
        ids.push(file)?;
    }
    Ok(ids)
}

// With what a name asks for, which has this number or none.
#[tactic(auto, using(crate::proofs::SettledLemmas::one_name))]
fn ask_name(
    before: Requests,
    offers: &OfferIndex,
    libs: &Libraries,
    known: &Known,
    name: &[u8],
    id: Option<u32>,
) -> Result<Requests, OutOfMemory>
    requires id { id ≡ position (bytes_eq name.now) known.now.names.now }
    requires marks { HasMarks known.now before }
    ensures have { IfOk result (λ after. HaveThenAsked offers.now libs.now known.now before after (name.now ∷ [])) }
    ensures marks { IfOk result (HasMarks known.now) }
{
    if is_settled(known.words, before.asked.as_slice(), id) {
        return Ok(before);
    }
    let Requests { ids, asked } = before;
    let asked = with_mark(asked, id);
    let ids = with_file(ids, asked_by(offers, libs, name))?;
    Ok(Requests { ids, asked })
}

// The number of a symbol's name, which a file's table of numbers gives for external ones.
fn number_for(names: &NameTable, symbol: &Symbol, number: u32) -> Option<u32>
    requires { number ≡ number_of names.now symbol.now }
    ensures { result ≡ position (bytes_eq symbol.now.name) names.now }
{
    if symbol.external {
        names.id_of_number(number)
    } else {
        names.id_of(symbol.name.as_slice())
    }
}

// With what a symbol's name asks for, where it is undefined.
#[tactic(auto, using(crate::proofs::SettledLemmas::one_symbol))]
fn ask_symbol(
    before: Requests,
    offers: &OfferIndex,
    libs: &Libraries,
    known: &Known,
    symbol: &Symbol,
    number: u32,
) -> Result<Requests, OutOfMemory>
    requires number { number ≡ number_of known.now.names.now symbol.now }
    requires marks { HasMarks known.now before }
    ensures have { IfOk result (λ after. HaveThenAsked offers.now libs.now known.now before after (undefined_name symbol.now)) }
    ensures marks { IfOk result (HasMarks known.now) }
{
    if !symbol.kind.is_undefined() {
        return Ok(before);
    }
    let id = number_for(known.names, symbol, number);
    ask_name(before, offers, libs, known, symbol.name.as_slice(), id)
}

// With what a file's names ask for, whose symbols have these numbers.
#[tactic(auto, using(crate::proofs::SettledLemmas::symbols), unfolding(crate::specs::Rounds::undefined_in))]
fn ask_file(
    before: Requests,
    offers: &OfferIndex,
    libs: &Libraries,
    known: &Known,
    file: &LoadedFile,
    numbers: &[u32],
) -> Result<Requests, OutOfMemory>
    requires numbers { numbers.now ≡ numbers_in known.now.names.now file.now }
    requires marks { HasMarks known.now before }
    ensures have { IfOk result (λ after. HaveThenAsked offers.now libs.now known.now before after (undefined_in file.now)) }
    ensures marks { IfOk result (HasMarks known.now) }
{
    let mut asked = before;
    for (i, symbol) in file.object.symbols.as_slice().iter().enumerate() {
        asked = ask_symbol(asked, offers, libs, known, symbol, number_at(numbers, i))?;
    }
    Ok(asked)
}

// With what the names of files ask for.
#[tactic(auto, using(crate::proofs::SettledLemmas::files))]
fn ask_files(
    before: Requests,
    offers: &OfferIndex,
    libs: &Libraries,
    known: &Known,
    files: &[LoadedFile],
    lists: &[NumberList],
) -> Result<Requests, OutOfMemory>
    requires numbers { lists.now ≡ numbers_of known.now.names.now files.now }
    requires marks { HasMarks known.now before }
    ensures have { IfOk result (λ after. HaveThenAsked offers.now libs.now known.now before after (flat_map undefined_in files.now)) }
    ensures marks { IfOk result (HasMarks known.now) }
{
    let mut asked = before;
    for (i, file) in files.iter().enumerate() {
        asked = ask_file(asked, offers, libs, known, file, numbers_at(lists, i))?;
    }
    Ok(asked)
}

// With what names ask for.
#[tactic(auto, using(crate::proofs::SettledLemmas::names))]
fn ask_names(
    before: Requests,
    offers: &OfferIndex,
    libs: &Libraries,
    known: &Known,
    names: &[Bytes],
) -> Result<Requests, OutOfMemory>
    requires marks { HasMarks known.now before }
    ensures have { IfOk result (λ after. HaveThenAsked offers.now libs.now known.now before after names.now) }
    ensures marks { IfOk result (HasMarks known.now) }
{
    let mut asked = before;
    for name in names {
        let id = known.names.id_of(name.as_slice());
        asked = ask_name(asked, offers, libs, known, name.as_slice(), id)?;
    }
    Ok(asked)
}

/// What the names ask for that new files want, whose symbols have these numbers, and some further names, where they have no
/// candidate and haven't asked. Each name asks once.
#[tactic(auto, using(crate::proofs::SettledLemmas::both))]
pub(crate) fn ask_all(
    alloc: Global,
    rules: &RoundRules,
    known: &Known,
    asked: Vec<bool>,
    files: &[LoadedFile],
    lists: &[NumberList],
    names: &[Bytes],
) -> Result<Requests, OutOfMemory>
    requires numbers { lists.now ≡ numbers_of known.now.names.now files.now }
    requires marks { length asked.items ≡ length known.now.names.now }
    ensures have { IfOk result (λ after. HaveAsked rules.now.offers rules.now.libs.now [] (asking.is_settled known.now.names.now known.now.words.now asked.items) after.ids.items (asking.is_settled known.now.names.now known.now.words.now after.asked.items) (flat_map undefined_in files.now ++ names.now)) }
    ensures marks { IfOk result (HasMarks known.now) }
{
    let before = Requests {
        ids: Vec::new(alloc),
        asked,
    };
    let asked = ask_files(before, &rules.offers, rules.libs, known, files, lists)?;
    ask_names(asked, &rules.offers, rules.libs, known, names)
}
