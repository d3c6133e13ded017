//! The names to which files refer weakly alone.
ghost use Rattle.std.specs.Prelude.{◌≡◌, ◌||◌, ◌&&◌, not, ℕ, List, IfOk};
ghost use Rattle.std.specs.List.{list_any};
ghost use Rattle.symbol_winners.specs.SymbolTable as spec;
ghost use Rattle.symbol_winners.specs.Winners.{lists};

use crate::name_set::NameSet;
use mo_types::{LoadedFile, OutOfMemory, Symbol, SymbolKind};
use std::alloc::Global;

fn refers_weakly(symbol: &Symbol) -> bool
    ensures { result ≡ spec.refers_weakly symbol.now }
{
    matches!(symbol.kind, SymbolKind::Undefined) && symbol.weak_ref
}

fn refers_strongly(symbol: &Symbol) -> bool
    ensures { result ≡ spec.refers_strongly symbol.now }
{
    matches!(symbol.kind, SymbolKind::Undefined) && !symbol.weak_ref
}

// Names, and the one to which a symbol refers weakly.
#[tactic(auto, using(crate::proofs::WeakLemmas::one_symbol))]
fn with_weak<'a>(names: NameSet<'a>, symbol: &'a Symbol) -> Result<NameSet<'a>, OutOfMemory>
    ensures { IfOk result (λ new. (name : List ℕ) → lists new name ≡ (lists names.entry name || spec.is_weak_to name symbol.now)) }
{
    if refers_weakly(symbol) {
        names.with(symbol.name.as_slice())
    } else {
        Ok(names)
    }
}

// Names without the one to which a symbol doesn't refer weakly.
#[tactic(auto, using(crate::proofs::WeakLemmas::one_symbol))]
fn without_strong<'a>(names: NameSet<'a>, symbol: &'a Symbol) -> NameSet<'a>
    ensures { (name : List ℕ) → lists result name ≡ (lists names.entry name && not (spec.is_strong_to name symbol.now)) }
{
    if refers_strongly(symbol) {
        names.without(symbol.name.as_slice())
    } else {
        names
    }
}

// Names, and those to which some symbols refer weakly.
fn add_weak<'a>(before: NameSet<'a>, symbols: &'a [Symbol]) -> Result<NameSet<'a>, OutOfMemory>
    ensures { IfOk result (λ new. (name : List ℕ) → lists new name ≡ (lists before.entry name || list_any (spec.is_weak_to name) symbols.now)) }
{
    let mut names = before;
    for symbol in symbols {
        names = with_weak(names, symbol)?;
    }
    Ok(names)
}

// The names to which files refer weakly.
fn weak_names<'a>(alloc: Global, files: &'a [LoadedFile]) -> Result<NameSet<'a>, OutOfMemory>
    ensures { IfOk result (λ new. (name : List ℕ) → lists new name ≡ spec.any_symbol (spec.is_weak_to name) files.now) }
{
    let mut names = NameSet::new(alloc);
    for file in files {
        names = add_weak(names, file.object.symbols.as_slice())?;
    }
    Ok(names)
}

// Names without those to which some symbols don't refer weakly.
fn drop_strong<'a>(before: NameSet<'a>, symbols: &'a [Symbol]) -> NameSet<'a>
    ensures { (name : List ℕ) → lists result name ≡ (lists before.entry name && not (list_any (spec.is_strong_to name) symbols.now)) }
{
    let mut names = before;
    for symbol in symbols {
        names = without_strong(names, symbol);
    }
    names
}

// Names without those to which some file doesn't refer weakly.
fn drop_all_strong<'a>(before: NameSet<'a>, files: &'a [LoadedFile]) -> NameSet<'a>
    ensures { (name : List ℕ) → lists result name ≡ (lists before.entry name && not (spec.any_symbol (spec.is_strong_to name) files.now)) }
{
    let mut names = before;
    for file in files {
        names = drop_strong(names, file.object.symbols.as_slice());
    }
    names
}

/// The names to which some file refers weakly and none refers otherwise (`nlist.h`: N_WEAK_REF).
pub(crate) fn weak_of<'a>(
    alloc: Global,
    files: &'a [LoadedFile],
) -> Result<NameSet<'a>, OutOfMemory>
    ensures { IfOk result (λ set. (name : List ℕ) → lists set name ≡ spec.is_weak files.now name) }
{
    let names = weak_names(alloc, files)?;
    if names.is_empty() {
        return Ok(names);
    }
    Ok(drop_all_strong(names, files))
}
