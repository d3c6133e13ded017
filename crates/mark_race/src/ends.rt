//! Where arrows lead, by the numbers of atoms.
ghost use Rattle.std.specs.Prelude.{◌≡◌, ◌<◌, ◌++◌, ◌∷◌, [], All, IfOk, get_or, length};
ghost use Rattle.mark_race.specs.inner.Rows.{IsWithin, rows};

use mo_types::OutOfMemory;
use std::alloc::Global;
use std::marker::Model;

/// Where the ends of an atom's arrows stand among those of all: the place of the first, and the one behind the last.
#[derive(Clone, Copy, Debug)]
pub(crate) struct Places {
    pub(crate) from: usize,
    pub(crate) to: usize,
}

/// For each atom, by its number, the numbers of those to which arrows lead from it. Contracts see the list of these lists.
/// The ends of all arrows lie in one array, behind one another.
#[derive(Debug, Drop)]
pub struct EndTable {
    places: Vec<Places>,
    ends: Vec<u32>,
}

impl Model for EndTable {
    ghost use Rattle.std.specs.Prelude.{ℕ, List, All, length};
    ghost use Rattle.mark_race.specs.inner.Rows.{IsWithin, rows};

    ghost Value = { List (List ℕ) };

    ghost view = { λ t. rows t.ends.items t.places.items };

    ghost invariant = { λ t. All (IsWithin (length t.ends.items)) t.places.items };
}

impl EndTable {
    /// A table of no atoms.
    pub fn new(alloc: Global) -> EndTable
        ensures { result ≡ [] }
    {
        EndTable {
            places: Vec::new(alloc),
            ends: Vec::new(alloc),
        }
    }

    /// The table with one atom more, whose arrows lead to these.
    #[tactic(auto, using(crate::proofs::Tables::tables))]
    pub fn with_row(self, row: &[u32]) -> Result<EndTable, OutOfMemory>
        ensures { IfOk result (λ t. t ≡ self ++ row.now ∷ []) }
    {
        let EndTable {
            mut places,
            mut ends,
        } = self;
        let from = ends.len();
        ends.extend_from_slice(row)?;
        let to = ends.len();
        places.push(Places { from, to })?;
        Ok(EndTable { places, ends })
    }

    /// The table of these ends, by the places of each atom's.
    pub(crate) fn of_places(places: Vec<Places>, ends: Vec<u32>) -> EndTable
        requires { All (IsWithin (length ends.items)) places.items }
        ensures { result ≡ rows ends.items places.items }
    {
        EndTable { places, ends }
    }

    /// How many atoms there are.
    pub fn len(&self) -> usize
        ensures { result ≡ length self.now }
    {
        self.places.len()
    }

    /// Where an atom's arrows lead.
    pub fn row(&self, atom: u32) -> &[u32]
        requires { atom < length self.now }
        ensures { result.now ≡ get_or self.now atom [] }
    {
        let places = self.places[atom as usize];
        &self.ends[places.from..places.to]
    }
}
