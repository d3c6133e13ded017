//! The candidates of files.
ghost use Rattle.std.specs.Prelude.{◌≡◌, ◌++◌, ◌<◌, ◌^◌, ℕ, List, length, All, IfOk};
ghost use Rattle.mo_types.specs.Loaded.{IsWholeFile};
ghost use Rattle.name_ids.specs.Names.{numbers_in, numbers_of};
ghost use Rattle.symbol_winners.specs.Found as spec;
ghost use Rattle.symbol_winners.specs.inner.Numbers.{AreNumbered};
ghost use Rattle.symbol_winners.specs.inner.Tables.{held};

use mo_types::{Items, LoadedFile, OutOfMemory, Symbol};
use name_ids::{NumberList, number_at, numbers_at};
use std::alloc::Global;

/// A candidate, with the file that has it.
#[derive(Clone, Copy)]
pub(crate) struct FoundIn<'a> {
    pub file: &'a LoadedFile,
    pub index: u32,
    /// The number of its name.
    pub number: u32,
    pub symbol: &'a Symbol,
}

// Candidates, and those of a file.
#[tactic(auto, using(crate::proofs::FoundLemmas::files_found))]
fn add_file<'a>(
    before: Vec<FoundIn<'a>>,
    file: &'a LoadedFile,
    numbers: &[u32],
) -> Result<Vec<FoundIn<'a>>, OutOfMemory>
    requires { length file.now.object.symbols < 2 ^ 24 }
    ensures found { IfOk result (λ new. held new.items ≡ held before.entry.items ++ spec.found_in file.now) }
    ensures numbered { IfOk result (λ new. (names : List (List ℕ)) → AreNumbered names before.entry.items
        → numbers.now ≡ numbers_in names file.now → AreNumbered names new.items) }
{
    let mut found = before;
    for (i, symbol) in file.object.symbols.as_slice().iter().enumerate() {
        if file.object.is_candidate(symbol) {
            found.push(FoundIn {
                file,
                index: i as u32,
                number: number_at(numbers, i),
                symbol,
            })?;
        }
    }
    Ok(found)
}

/// The candidates of files, file by file in the order of their symbols, with the numbers of their names.
#[tactic(auto, using(crate::proofs::FoundLemmas::all_found))]
pub(crate) fn candidates<'a>(
    alloc: Global,
    files: &'a [LoadedFile],
    numbers: &Items<NumberList>,
) -> Result<Vec<FoundIn<'a>>, OutOfMemory>
    requires { All IsWholeFile files.now }
    ensures found { IfOk result (λ all. held all.items ≡ spec.found files.now) }
    ensures numbered { IfOk result (λ all. (names : List (List ℕ)) → numbers.now ≡ numbers_of names files.now → AreNumbered names all.items) }
{
    let lists = numbers.as_slice();
    let mut found = Vec::new(alloc);
    for (i, file) in files.iter().enumerate() {
        found = add_file(found, file, numbers_at(lists, i))?;
    }
    Ok(found)
}
