//! Files by rising ids.
ghost use Rattle.std.specs.Prelude.{◌≡◌, ◌++◌, ℕ, List, map, IfOk};
ghost use Rattle.std.specs.List.Sorted.{IsPermutation, IsSortedBy};
ghost use Rattle.std.specs.Ordering.{is_lt};
ghost use Rattle.mo_types.specs.Keys.{compare_files};
ghost use Rattle.mo_types.specs.declared.loaded.LoadedFile.{LoadedFile as File};
ghost use Rattle.member_rounds.specs.inner.Paired.{pair_of, zipped};

use mo_types::{Items, Loaded, LoadedFile, LoadedList, OutOfMemory};
use name_ids::NumberList;
use std::alloc::Global;

/// Files, and more files.
pub(crate) fn with_files(before: Loaded, more: LoadedList) -> Result<Loaded, OutOfMemory>
    ensures { IfOk result (λ all. all.files ≡ before.files ++ more) }
{
    let mut all = before.files.into_vec();
    let mut more = more.into_vec();
    all.append(&mut more)?;
    Ok(Loaded {
        files: LoadedList::from_vec(all),
    })
}

/// The numbers of symbols of files, and those of more files.
pub(crate) fn with_numbers(
    before: Items<NumberList>,
    more: Items<NumberList>,
) -> Result<Items<NumberList>, OutOfMemory>
    ensures { IfOk result (λ all. all ≡ before ++ more) }
{
    let mut all = before.into_vec();
    let mut more = more.into_vec();
    all.append(&mut more)?;
    Ok(Items::from_vec(all))
}

// Puts files in the order of their ids.
fn put_in_order(files: &mut Vec<LoadedFile>)
    ensures permutation { IsPermutation files.old.items files.new.items }
    ensures sorted { IsSortedBy (λ a b. is_lt (compare_files a.id b.id)) files.new.items }
{
    files.sort_unstable_by_key(|file| file.id);
}

/// The files by rising id.
pub(crate) fn in_order(files: Loaded) -> Loaded
    ensures permutation { IsPermutation files.files result.files }
    ensures sorted { IsSortedBy (λ a b. is_lt (compare_files a.id b.id)) result.files }
{
    let mut files = files.files.into_vec();
    put_in_order(&mut files);
    Loaded {
        files: LoadedList::from_vec(files),
    }
}

/// A file and the numbers of its symbols.
#[derive(Drop)]
pub(crate) struct NamedFile {
    file: LoadedFile,
    numbers: NumberList,
}

// Pairs, and a file with its numbers, where there are any.
fn with_pair(
    before: Vec<NamedFile>,
    file: LoadedFile,
    numbers: Option<NumberList>,
) -> Result<Vec<NamedFile>, OutOfMemory>
    ensures { IfOk result (λ pairs. pairs.items ≡ before.items ++ pair_of file numbers) }
{
    let mut pairs = before;
    if let Some(numbers) = numbers {
        pairs.push(NamedFile { file, numbers })?;
    }
    Ok(pairs)
}

// Files, each with the numbers of its symbols.
#[tactic(auto, using(crate::proofs::OrderLemmas::pairing))]
fn paired(
    alloc: Global,
    files: Vec<LoadedFile>,
    numbers: Vec<NumberList>,
) -> Result<Vec<NamedFile>, OutOfMemory>
    ensures { IfOk result (λ pairs. pairs.items ≡ zipped files.items numbers.items) }
{
    let mut pairs = Vec::with_capacity(alloc, files.len())?;
    let mut lists = numbers.into_iter();
    for file in files {
        pairs = with_pair(pairs, file, lists.next())?;
    }
    Ok(pairs)
}

// Puts files with their numbers in the order of the files' ids.
fn put_pairs_in_order(pairs: &mut Vec<NamedFile>)
    ensures permutation { IsPermutation pairs.old.items pairs.new.items }
    ensures sorted { IsSortedBy (λ a b. is_lt (compare_files a.file.id b.file.id)) pairs.new.items }
{
    pairs.sort_unstable_by_key(|pair| pair.file.id);
}

// The files, and their numbers.
#[tactic(auto, using(crate::proofs::OrderLemmas::parting))]
fn parted(
    alloc: Global,
    pairs: Vec<NamedFile>,
) -> Result<(Vec<LoadedFile>, Vec<NumberList>), OutOfMemory>
    ensures files { IfOk result (λ r. r.0.items ≡ map (λ p. p.file) pairs.items) }
    ensures numbers { IfOk result (λ r. r.1.items ≡ map (λ p. p.numbers) pairs.items) }
{
    let mut files = Vec::with_capacity(alloc, pairs.len())?;
    let mut numbers = Vec::with_capacity(alloc, pairs.len())?;
    for pair in pairs {
        files.push(pair.file)?;
        numbers.push(pair.numbers)?;
    }
    Ok((files, numbers))
}

/// The files by rising id, each with the numbers of its symbols.
#[tactic(auto, using(crate::proofs::OrderLemmas::ordering))]
pub(crate) fn in_order_with(
    alloc: Global,
    files: Loaded,
    numbers: Items<NumberList>,
) -> Result<(Loaded, Items<NumberList>), OutOfMemory>
    ensures permutation { IfOk result (λ r. (f : File → List ℕ) → numbers ≡ map f files.files → IsPermutation files.files r.0.files) }
    ensures sorted { IfOk result (λ r. IsSortedBy (λ a b. is_lt (compare_files a.id b.id)) r.0.files) }
    ensures numbers { IfOk result (λ r. (f : File → List ℕ) → numbers ≡ map f files.files → r.1 ≡ map f r.0.files) }
{
    let mut pairs = paired(alloc, files.files.into_vec(), numbers.into_vec())?;
    put_pairs_in_order(&mut pairs);
    let (files, numbers) = parted(alloc, pairs)?;
    let loaded = Loaded {
        files: LoadedList::from_vec(files),
    };
    Ok((loaded, Items::from_vec(numbers)))
}
