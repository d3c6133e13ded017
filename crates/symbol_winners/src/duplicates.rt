//! Names that two strong definitions have.
ghost use Rattle.std.specs.Prelude.{◌≡◌, ◌<◌, ◌==◌, ◌&&◌, ◌∷◌, ◌++◌, true, [], List, length, IfOk, IfSome};
ghost use Rattle.mo_types.specs.Candidates.{Candidate, is_candidate, strength};
ghost use Rattle.mo_types.specs.Loaded.{IsWholeLoaded};
ghost use Rattle.name_ids.specs.Names.{IsNumbering, number_of, numbers_in, numbers_of};
ghost use Rattle.symbol_winners.specs.Found.{AreNamed, FileCandidate, found, found_in};
ghost use Rattle.symbol_winners.specs.Duplicates.{IsDuplicate};
ghost use Rattle.symbol_winners.specs.inner.Tables.{AreFirsts, IsLeastOf, better_of, name_at, strong_among};
ghost use Rattle.symbol_winners.specs.inner.Tables as tables;
ghost use Rattle.std.specs.Ordering.{is_gt, nat_cmp};
ghost use Rattle.std.specs.Cmp.Lexicographic.{slice_cmp};

use crate::firsts::Firsts;
use mo_types::{FileId, Items, Loaded, LoadedFile, OutOfMemory, Symbol};
use name_ids::{NameTable, NumberList, number_at, numbers_at};
use std::alloc::Global;

// Notes a candidate of a name.
fn note(table: &mut Vec<Firsts>, names: &NameTable, number: u32, file: FileId)
    requires numbering { IsNumbering names.now }
    requires table { length table.old.items ≡ length names.now }
    ensures size { length table.new.items ≡ length table.old.items }
    ensures firsts { (cs : List Candidate) (c : Candidate) → c.file ≡ file → c.symbol.external ≡ true
        → number ≡ number_of names.now c.symbol → AreFirsts names.now cs table.old.items → AreFirsts names.now (cs ++ c ∷ []) table.new.items }
{
    if let Some(id) = names.id_of_number(number) {
        let place = &mut table[id as usize];
        *place = place.with(file);
    }
}

// Whether a symbol of a file is a strong candidate.
fn is_strong(file: &LoadedFile, symbol: &Symbol) -> bool
    ensures { result ≡ (is_candidate file.now.object.sections symbol.now && strength symbol.now == 0) }
{
    file.object.is_candidate(symbol) && symbol.strength() == 0
}

// Notes the strong candidates of a file, whose names have these numbers.
#[tactic(auto, using(crate::proofs::UntilLemmas::firsts_noted))]
fn note_file(table: &mut Vec<Firsts>, names: &NameTable, file: &LoadedFile, numbers: &[u32])
    requires numbering { IsNumbering names.now }
    requires table { length table.old.items ≡ length names.now }
    requires numbers { numbers.now ≡ numbers_in names.now file.now }
    ensures size { length table.new.items ≡ length table.old.items }
    ensures firsts { (all : List FileCandidate) → AreFirsts names.now (strong_among all) table.old.items
        → AreFirsts names.now (strong_among (all ++ found_in file.now)) table.new.items }
{
    for (i, symbol) in file.object.symbols.as_slice().iter().enumerate() {
        if is_strong(file, symbol) {
            note(table, names, number_at(numbers, i), file.id);
        }
    }
}

// For each name the first two of its strong candidates.
#[tactic(auto, using(crate::proofs::UntilLemmas::firsts_noted))]
fn firsts_of(
    alloc: Global,
    names: &NameTable,
    files: &[LoadedFile],
    numbers: &Items<NumberList>,
) -> Result<Vec<Firsts>, OutOfMemory>
    requires { numbers.now ≡ numbers_of names.now files.now }
    ensures firsts { IfOk result (λ table. AreFirsts names.now (strong_among (found files.now)) table.items) }
    ensures numbering { IsNumbering names.now }
{
    let lists = numbers.as_slice();
    let mut table = vec![in alloc; Firsts::Neither; names.len() as usize]?;
    for (i, file) in files.iter().enumerate() {
        note_file(&mut table, names, file, numbers_at(lists, i));
    }
    Ok(table)
}

// Whether the name of a number is after that of another one.
fn is_after(names: &NameTable, a: u32, b: u32) -> bool
    requires a { a < length names.now }
    requires b { b < length names.now }
    ensures { result ≡ is_gt (slice_cmp nat_cmp (name_at names.now a) (name_at names.now b)) }
{
    names.name_of(a).cmp(names.name_of(b)).is_gt()
}

// The number of the lesser of two names, or the second where there is no first.
#[tactic(auto, unfolding(crate::specs::inner::Tables::better_of))]
fn better(names: &NameTable, best: Option<u32>, id: u32) -> u32
    requires best { IfSome best (λ b. b < length names.now) }
    requires id { id < length names.now }
    ensures { result ≡ better_of names.now best id }
{
    match best {
        Some(best) => { if is_after(names, best, id) { id } else { best } }
        None => id,
    }
}

// The number of the least name that has two.
#[tactic(auto, using(crate::proofs::LeastLemmas::leasts))]
fn least(names: &NameTable, table: &[Firsts]) -> Option<u32>
    requires numbering { IsNumbering names.now }
    requires table { length table.now ≡ length names.now }
    ensures { IsLeastOf names.now table.now (length table.now) result }
{
    let mut best = None;
    for (i, firsts) in table.iter().enumerate() {
        if firsts.pair().is_some() {
            best = Some(better(names, best, i as u32));
        }
    }
    best
}

// The number of the least name that has two, and the files of these.
fn least_pair(names: &NameTable, table: &[Firsts]) -> Option<(u32, FileId, FileId)>
    requires numbering { IsNumbering names.now }
    requires table { length table.now ≡ length names.now }
    ensures { tables.IsLeastPair names.now table.now result }
{
    let id = least(names, table)?;
    let (first, second) = table[id as usize].pair()?;
    Some((id, first, second))
}

/// The least name that two strong definitions have, by its number, and the files of its first two; `None` exactly where
/// no name has two, whether or not they are kept.
pub fn duplicate(
    alloc: Global,
    loaded: &Loaded,
    names: &NameTable,
    numbers: &Items<NumberList>,
) -> Result<Option<(u32, FileId, FileId)>, OutOfMemory>
    requires whole { IsWholeLoaded loaded.now }
    requires named { AreNamed names.now loaded.now.files }
    requires numbers { numbers.now ≡ numbers_of names.now loaded.now.files }
    ensures { IfOk result (λ found. IsDuplicate loaded.now.files names.now found) }
{
    let table = firsts_of(alloc, names, loaded.files.as_slice(), numbers)?;
    Ok(least_pair(names, table.as_slice()))
}
