//! The atoms that are kept.
ghost use Rattle.std.specs.Prelude.{◌≡◌, ◌++◌, ◌∷◌, [], ℕ, IfOk, length, map, slice_get, if◌then◌else◌};
ghost use Rattle.std.specs.List.{filter};
ghost use Rattle.std.specs.List.Sorted.{IsStrictlySortedBy};
ghost use Rattle.mark_core.specs.Kept.{has};
ghost use Rattle.mo_types.specs.Keys.{compare_keys};
ghost use Rattle.image_make.specs.Atoms as spec;
ghost use Rattle.image_make.specs.inner.Commons.{all_commons};

use crate::commons::{commons_of, kept_commons};
use mark_core::is_kept_near;
use mo_types::{Atom, AtomKey, AtomList, KeyList, Loaded, LoadedFile, OutOfMemory};
use std::alloc::Global;
use std::marker::Model;
use symbol_winners::SymbolTable;

/// An atom of the image, with the alignment with which it is placed.
#[derive(Clone, Copy, Debug, PartialEq, Eq)]
pub struct KeptAtom {
    pub atom: Atom,
    /// The place of its file among the loaded ones, counted from 0.
    pub file: usize,
}

/// The atoms of an image, file by file. Contracts see it as the list of them.
#[derive(Debug, Drop)]
pub struct KeptList {
    atoms: AtomList,
    files: Vec<usize>,
}

impl Model for KeptList {
    ghost use Rattle.std.specs.Prelude.{◌≡◌, List, length};
    ghost use Rattle.image_make.specs.declared.kept.KeptAtom.{KeptAtom};
    ghost use Rattle.image_make.specs.inner.Kept.{kept_list};

    ghost Value = { List KeptAtom };

    ghost view = { λ kept. kept_list kept.atoms kept.files.items };

    ghost invariant = { λ kept. length kept.atoms ≡ length kept.files.items };
}

impl KeptList {
    // No atoms, with room for some.
    #[tactic(auto, using(crate::proofs::KeptListLemmas::nothing))]
    fn with_capacity(alloc: Global, count: usize) -> Result<KeptList, OutOfMemory>
        ensures { IfOk result (λ kept. kept ≡ []) }
    {
        Ok(KeptList {
            atoms: AtomList::from_vec(Vec::with_capacity(alloc, count)?),
            files: Vec::with_capacity(alloc, count)?,
        })
    }

    /// How many atoms it has.
    #[tactic(auto, using(crate::proofs::KeptListLemmas::counts))]
    pub fn len(&self) -> usize
        ensures { result ≡ length self.now }
    {
        self.atoms.len()
    }

    /// The atom at a place, or `None` exactly where the list ends before it.
    #[tactic(auto, using(crate::proofs::KeptListLemmas::gets))]
    pub fn get(&self, at: usize) -> Option<KeptAtom>
        ensures { result ≡ slice_get self.now at }
    {
        let atom = *self.atoms.get(at)?;
        let file = *self.files.get(at)?;
        Some(KeptAtom { atom, file })
    }

    /// The atoms alone.
    #[tactic(auto, using(crate::proofs::KeptListLemmas::alone))]
    pub fn atoms(&self) -> &AtomList
        ensures { result.now ≡ map spec.atom_of self.now }
    {
        &self.atoms
    }
}

// An atom with the alignment with which it is placed.
#[tactic(auto, unfolding(crate::specs::Atoms::raised))]
fn raised(symbols: &SymbolTable, atom: Atom) -> Atom
    ensures { result ≡ spec.raised symbols.now.literals atom }
{
    Atom {
        key: atom.key,
        size: atom.size,
        align: match symbols.literal(atom.key) {
            Some(literal) if literal.representative == atom.key => literal.align,
            _ => atom.align,
        },
    }
}

// Kept atoms, and one more, if it is kept.
fn with_atom(
    before: Vec<Atom>,
    symbols: &SymbolTable,
    keys: &[AtomKey],
    atom: Atom,
) -> Result<Vec<Atom>, OutOfMemory>
    requires { IsStrictlySortedBy compare_keys keys.now }
    ensures { IfOk result (λ new. new.items ≡ before.items ++ map (spec.raised symbols.now.literals) (if has keys.now atom.key then atom ∷ [] else [])) }
{
    let mut kept = before;
    if is_kept_near(keys, kept.len(), atom.key) {
        kept.push(raised(symbols, atom))?;
    }
    Ok(kept)
}

// Kept atoms, and those among some.
#[tactic(auto, using(crate::proofs::KeptLemmas::atoms))]
fn with_atoms(
    before: Vec<Atom>,
    symbols: &SymbolTable,
    keys: &[AtomKey],
    atoms: &[Atom],
) -> Result<Vec<Atom>, OutOfMemory>
    requires { IsStrictlySortedBy compare_keys keys.now }
    ensures { IfOk result (λ new. new.items ≡ before.items ++ map (spec.raised symbols.now.literals) (filter (λ atom. has keys.now atom.key) atoms.now)) }
{
    let mut kept = before;
    for atom in atoms {
        kept = with_atom(kept, symbols, keys, *atom)?;
    }
    Ok(kept)
}

// Kept atoms, and those of common symbols.
#[tactic(auto, using(crate::proofs::KeptLemmas::commons))]
fn with_commons(
    before: Vec<Atom>,
    symbols: &SymbolTable,
    commons: &[Atom],
) -> Result<Vec<Atom>, OutOfMemory>
    ensures { IfOk result (λ new. new.items ≡ before.items ++ map (spec.raised symbols.now.literals) commons.now) }
{
    let mut kept = before;
    for atom in commons {
        kept.push(raised(symbols, *atom))?;
    }
    Ok(kept)
}

// Kept atoms, and those among some of the file at a place, and of common symbols.
fn with_file(
    before: KeptList,
    symbols: &SymbolTable,
    keys: &[AtomKey],
    at: usize,
    file: &LoadedFile,
    commons: &[Atom],
) -> Result<KeptList, OutOfMemory>
    requires { IsStrictlySortedBy compare_keys keys.now }
    ensures { IfOk result (λ new. new ≡ before ++ map (spec.kept_as symbols.now.literals at) (filter (λ atom. has keys.now atom.key) file.now.atoms ++ commons.now)) }
{
    let KeptList {
        atoms: kept,
        mut files,
    } = before;
    let kept = with_atoms(kept.into_vec(), symbols, keys, file.atoms.as_slice())?;
    let kept = with_commons(kept, symbols, commons)?;
    files.resize(kept.len(), at)?;
    Ok(KeptList {
        atoms: AtomList::from_vec(kept),
        files,
    })
}

// Those of files.
#[tactic(auto, using(crate::proofs::KeptLemmas::files))]
fn kept_of(
    alloc: Global,
    files: &[LoadedFile],
    symbols: &SymbolTable,
    keys: &[AtomKey],
    commons: &[Atom],
) -> Result<KeptList, OutOfMemory>
    requires keys { IsStrictlySortedBy compare_keys keys.now }
    requires commons { commons.now ≡ all_commons symbols.now.winners keys.now }
    ensures { IfOk result (λ kept. kept ≡ spec.kept_atoms symbols.now.literals symbols.now.winners keys.now files.now) }
{
    let mut kept = KeptList::with_capacity(alloc, keys.len())?;
    for (at, file) in files.iter().enumerate() {
        let own = commons_of(commons, file.id);
        kept = with_file(kept, symbols, keys, at, file, own)?;
    }
    Ok(kept)
}

/// The atoms of loaded files whose keys are kept, file by file: in each as it is cut, and then those of common symbols, of
/// the greatest size and alignment of their names. A literal that stands for others has the greatest of their alignments.
pub fn kept_atoms(
    alloc: Global,
    loaded: &Loaded,
    symbols: &SymbolTable,
    keys: &KeyList,
) -> Result<KeptList, OutOfMemory>
    requires { IsStrictlySortedBy compare_keys keys.now }
    ensures { IfOk result (λ kept. kept ≡ spec.kept_atoms symbols.now.literals symbols.now.winners keys.now loaded.now.files) }
{
    let keys = keys.as_slice();
    let commons = kept_commons(alloc, symbols.winners(), keys)?;
    kept_of(
        alloc,
        loaded.files.as_slice(),
        symbols,
        keys,
        commons.as_slice(),
    )
}
