//! Places by the numbers of names.
ghost use Rattle.std.specs.Prelude.{◌≡◌, ◌<◌, ◌^◌, ℕ, List, None, Some, true, IfOk, get_or, length, slice_get, if◌then◌else◌};
ghost use Rattle.std.specs.Str.{bytes_eq};
ghost use Rattle.mo_types.specs.declared.object.Symbol.{Symbol as Declared};
ghost use Rattle.name_ids.specs.Names.{IsNumbering, number_of};
ghost use Rattle.symbol_winners.specs.inner.Index.{known};

use mo_types::OutOfMemory;
use name_ids::NameTable;
use std::alloc::Global;

/// For some of the names of a table a place each.
#[derive(Drop)]
pub struct NameIndex<'a> {
    names: &'a NameTable,
    // By the names' numbers.
    places: Vec<Option<u32>>,
}

impl<'a> NameIndex<'a> {
    /// The index in which no name of a table has a place.
    #[tactic(auto, using(crate::proofs::PlaceSteps::nothing))]
    pub(crate) fn new(alloc: Global, names: &'a NameTable) -> Result<NameIndex<'a>, OutOfMemory>
        ensures nothing { IfOk result (λ index. (name : List ℕ) → known index name ≡ None) }
        ensures names { IfOk result (λ index. index.names.now ≡ names.entry.now) }
        ensures len { IfOk result (λ index. length index.places.items ≡ length names.now) }
    {
        Ok(NameIndex {
            names,
            places: vec![in alloc; None; names.len() as usize]?,
        })
    }

    /// The names of the table.
    pub(crate) fn names(&self) -> &NameTable
        ensures { result.now ≡ self.now.names.now }
    {
        self.names
    }

    // What stands under a number.
    fn at(&self, id: u32) -> Option<usize>
        ensures { result ≡ get_or self.now.places.items id None }
    {
        match self.places.get(id as usize) {
            Some(Some(place)) => Some(*place as usize),
            Some(None) | None => None,
        }
    }

    /// The place of the name of a number.
    pub(crate) fn numbered(&self, number: u32) -> Option<usize>
        ensures name { (name : List ℕ) → slice_get self.now.names.now number ≡ Some name → result ≡ known self.now name }
        ensures symbol { (symbol : Declared) → symbol.external ≡ true → number ≡ number_of self.now.names.now symbol → result ≡ known self.now symbol.name }
    {
        if number < self.names.len() {
            self.at(number)
        } else {
            None
        }
    }

    /// The place of a name. Takes no memory.
    #[tactic(auto, unfolding(crate::specs::inner::Index::place_of_name))]
    pub(crate) fn get(&self, name: &[u8]) -> Option<usize>
        ensures { result ≡ known self.now name.now }
    {
        match self.names.id_of(name) {
            Some(id) => self.at(id),
            None => None,
        }
    }

    /// Gives the name of a number a place, instead of the one that it had. Takes no memory.
    pub(crate) fn put(&mut self, id: u32, place: usize)
        requires numbering { IsNumbering self.old.names.now }
        requires id { id < length self.old.places.items }
        requires place { place < 2 ^ 32 }
        ensures places { (name other : List ℕ) → slice_get self.old.names.now id ≡ Some name
            → known self.new other ≡ (if bytes_eq name other then Some place else known self.old other) }
        ensures names { self.new.names.now ≡ self.old.names.now }
        ensures len { length self.new.places.items ≡ length self.old.places.items }
    {
        self.places[id as usize] = Some(place as u32);
    }
}
