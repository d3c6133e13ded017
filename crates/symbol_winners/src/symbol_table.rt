//! The symbol table of a link: what each name stands for in all files.
ghost use Rattle.std.specs.Prelude.{◌≡◌, ℕ, List, Some, true, slice_get};
ghost use Rattle.std.specs.Option.{option_copied};
ghost use Rattle.mo_types.specs.declared.object.Symbol.{Symbol as Declared};
ghost use Rattle.name_ids.specs.Names.{number_of};
ghost use Rattle.literal_merge.specs.Standing as standing;
ghost use Rattle.symbol_winners.specs.Winners.{lists, winner_named};
ghost use Rattle.symbol_winners.specs.inner.Index.{IsIndexed};

use crate::name_index::NameIndex;
use crate::name_set::NameSet;
use crate::winner::{Winner, WinnerList};
use literal_merge::{Representative, RepresentativeList, representative_in, stands_for};
use mo_types::AtomKey;
use name_ids::NameTable;
use std::marker::Model;

/// The symbol table of some files and a command: the winner of each name and the representative of each literal. Contracts
/// see their lists, the names to which the files refer weakly alone, those that the command looks up in all images, and all
/// names by their numbers. A private index makes the look-up of a name cost the same whatever there is, and of a number less.
#[derive(Drop)]
pub struct SymbolTable<'a> {
    winners: WinnerList,
    literals: RepresentativeList,
    weak: NameSet<'a>,
    flats: NameSet<'a>,
    index: NameIndex<'a>,
}

impl<'a> Model for SymbolTable<'a> {
    ghost use Rattle.symbol_winners.specs.SymbolTable as spec;
    ghost use Rattle.symbol_winners.specs.inner.Index.{IsIndexed};

    ghost Value = { spec.SymbolTable };

    ghost view = { λ w. record { winners = w.winners; literals = w.literals; weak = w.weak; flats = w.flats; names = w.index.names.now } };

    ghost invariant = { λ w. IsIndexed w.winners w.literals w.index };
}

impl<'a> SymbolTable<'a> {
    /// The winners, in the byte order of their names.
    pub fn winners(&self) -> &[Winner]
        ensures { result.now ≡ self.now.winners }
    {
        self.winners.as_slice()
    }

    /// What stands for each literal, in the order of their keys.
    pub fn literals(&self) -> &[Representative]
        ensures { result.now ≡ self.now.literals }
    {
        self.literals.as_slice()
    }

    /// The winner of a name, or `None` exactly where it has none. Takes no memory.
    pub fn winner(&self, name: &[u8]) -> Option<&Winner>
        ensures { option_copied result ≡ winner_named self.now.winners name.now }
    {
        match self.index.get(name) {
            Some(at) => self.winners.get(at),
            None => None,
        }
    }

    /// The winner of the name of a number, or `None` exactly where it has none. Takes no memory.
    #[tactic(auto, using(crate::proofs::PlaceSteps::winner_there))]
    pub fn winner_numbered(&self, number: u32) -> Option<&Winner>
        ensures name { (name : List ℕ) → slice_get self.now.names number ≡ Some name → option_copied result ≡ winner_named self.now.winners name }
        ensures symbol { (symbol : Declared) → symbol.external ≡ true → number ≡ number_of self.now.names symbol
            → option_copied result ≡ winner_named self.now.winners symbol.name }
    {
        match self.index.numbered(number) {
            Some(at) => self.winners.get(at),
            None => None,
        }
    }

    /// The atom that stands for one in the image: of a literal its representative, of any other itself. Takes no memory.
    pub fn representative(&self, atom: AtomKey) -> AtomKey
        ensures { result ≡ standing.stands_for self.now.literals atom }
    {
        stands_for(self.literals.as_slice(), atom)
    }

    /// What stands for a literal, with the alignment with which that is placed, or `None` exactly where the atom is no
    /// literal. Takes no memory.
    pub fn literal(&self, atom: AtomKey) -> Option<&Representative>
        ensures { option_copied result ≡ standing.literal_at self.now.literals atom }
    {
        representative_in(self.literals.as_slice(), atom)
    }

    /// Whether the files refer to a name weakly alone, so that it may be missing.
    pub fn is_weak(&self, name: &[u8]) -> bool
        ensures { result ≡ lists self.now.weak name.now }
    {
        self.weak.contains(name)
    }

    /// Whether the command looks a name up in all images.
    pub fn is_flat(&self, name: &[u8]) -> bool
        ensures { result ≡ lists self.now.flats name.now }
    {
        self.flats.contains(name)
    }

    /// All names, by their numbers.
    pub fn names(&self) -> &NameTable
        ensures { result.now ≡ self.now.names }
    {
        self.index.names()
    }

    // That of some lists, and an index that leads to the winners.
    pub(crate) fn of_lists(
        winners: WinnerList,
        literals: RepresentativeList,
        weak: NameSet<'a>,
        flats: NameSet<'a>,
        index: NameIndex<'a>,
    ) -> SymbolTable<'a>
        requires { IsIndexed winners literals index }
        ensures { result ≡ record { winners = winners; literals = literals; weak = weak.entry; flats = flats.entry; names = index.entry.names.now } }
    {
        SymbolTable {
            winners,
            literals,
            weak,
            flats,
            index,
        }
    }
}
