//! Names that are added behind others, one by one, and the numbers that they get.
ghost use Rattle.std.specs.Prelude.{◌≡◌, ◌∷◌, [], Ok, Err, IfOk, IfErr, OnOk};
ghost use Rattle.name_ids.specs.Names.{IsGatherFault, added, external_of, external_names, gathered, number_of, numbers_in, numbers_of};
ghost use Rattle.name_ids.specs.inner.Staying.{AllStay, Stays};

use crate::fault::GatherFault;
use crate::held_name::HeldName;
use crate::numbered::{NO_NUMBER, NumberList, Numbered};
use crate::table::NameTable;
use indexmap::IndexSet;
use mo_types::{Bytes, Items, Loaded, LoadedFile, NameList, OutOfMemory, Symbol};
use std::alloc::Global;

// Puts a symbol's name among names where it is external, and answers its number.
#[tactic(auto, using(crate::proofs::Staying::symbol))]
fn add_symbol(names: &mut IndexSet<HeldName>, symbol: &Symbol) -> Result<u32, OutOfMemory>
    ensures keys { OnOk result (names.new.keys ≡ added names.old.keys (external_of (symbol.now ∷ []))) }
    ensures number { IfOk result (Stays number_of names.new.keys symbol.now) }
{
    if symbol.external {
        let (at, _) = names.insert_full(HeldName::new(symbol.name.clone()?))?;
        Ok(at.min(NO_NUMBER as usize) as u32)
    } else {
        Ok(NO_NUMBER)
    }
}

// Puts the names of external symbols among names, and answers the numbers of all symbols.
#[tactic(auto, using(crate::proofs::Staying::symbols))]
fn add_symbols(
    alloc: Global,
    names: &mut IndexSet<HeldName>,
    symbols: &[Symbol],
) -> Result<NumberList, OutOfMemory>
    ensures keys { OnOk result (names.new.keys ≡ added names.old.keys (external_of symbols.now)) }
    ensures numbers { IfOk result (AllStay number_of names.new.keys symbols.now) }
{
    let mut numbers = Vec::with_capacity(alloc, symbols.len())?;
    for symbol in symbols {
        numbers.push(add_symbol(names, symbol)?)?;
    }
    Ok(NumberList::from_vec(numbers))
}

/// Puts the names of the external symbols of files among names, and answers the numbers of all their symbols.
#[tactic(auto, using(crate::proofs::Staying::files))]
pub(crate) fn add_files(
    alloc: Global,
    names: &mut IndexSet<HeldName>,
    files: &[LoadedFile],
) -> Result<Items<NumberList>, OutOfMemory>
    ensures keys { OnOk result (names.new.keys ≡ added names.old.keys (external_names files.now)) }
    ensures numbers { IfOk result (AllStay numbers_in names.new.keys files.now) }
{
    let mut lists = Vec::with_capacity(alloc, files.len())?;
    for file in files {
        lists.push(add_symbols(alloc, names, file.object.symbols.as_slice())?)?;
    }
    Ok(Items::from_vec(lists))
}

/// Names, and more names.
#[tactic(auto, using(crate::proofs::Gathering::names))]
pub(crate) fn add_names(
    before: IndexSet<HeldName>,
    more: &[Bytes],
) -> Result<IndexSet<HeldName>, OutOfMemory>
    ensures { IfOk result (λ new. new.keys ≡ added before.keys more.now) }
{
    let mut names = before;
    for name in more {
        names.insert(HeldName::new(name.clone()?))?;
    }
    Ok(names)
}

/// Numbers names from 0 on in the order in which they come first: those of the external symbols of the files, file by
/// file, and then the further ones. `Names` exactly where there are 2^24 names or more.
#[tactic(auto, using(crate::proofs::Staying::gather))]
pub fn gather(alloc: Global, loaded: &Loaded, extra: &NameList) -> Result<Numbered, GatherFault>
    ensures names { IfOk result (λ all. gathered loaded.now.files extra.now ≡ Ok all.names) }
    ensures numbers { IfOk result (λ all. all.numbers ≡ numbers_of all.names loaded.now.files) }
    ensures fault { IfErr result (λ fault. IsGatherFault fault → gathered loaded.now.files extra.now ≡ Err fault) }
{
    let Numbered { names, numbers } = NameTable::new(alloc).with_files(
        alloc,
        loaded.files.as_slice(),
    )?;
    let names = names.with_names(extra.as_slice())?;
    Ok(Numbered { names, numbers })
}
