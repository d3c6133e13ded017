ghost use Rattle.std.specs.Prelude.{◌≡◌, ◌<◌, nat_lt, true, length, [], position, slice_get, Ok, Err, Some, None, IfOk, IfErr, if◌then◌else◌};
ghost use Rattle.std.specs.Str.{bytes_eq};
ghost use Rattle.mo_types.specs.Gives.{Gives};
ghost use Rattle.mo_types.specs.declared.object.Symbol.{Symbol};
ghost use Rattle.name_ids.specs.Names as spec;
ghost use Rattle.name_ids.specs.Names.{IsGatherFault, IsNumbering, added, external_names, limited, number_of, numbers_of};

use crate::fault::GatherFault;
use crate::held_name::HeldName;
use crate::name::Name;
use crate::numbered::Numbered;
use crate::numbering::{add_files, add_names};
use indexmap::IndexSet;
use mo_types::{Bytes, LoadedFile};
use std::alloc::Global;
use std::marker::Model;

// There are fewer names.
const LIMIT: usize = 1 << 24;

/// Distinct names by their numbers from 0 on, to which further ones can be added behind. Contracts see the list of the
/// names; it holds no two that are the same, and fewer than 2^24. A name shares its bytes with the file that it is from.
#[derive(Drop)]
pub struct NameTable {
    names: IndexSet<HeldName>,
}

impl Model for NameTable {
    ghost use Rattle.std.specs.Prelude.{List, ℕ};
    ghost use Rattle.name_ids.specs.Names.{IsNumbering};

    ghost Value = { List (List ℕ) };

    ghost view = { λ table. table.names.keys };

    ghost invariant = { λ table. IsNumbering table.names.keys };
}

// The table of names, unless there are too many.
fn table_of(names: IndexSet<HeldName>) -> Result<NameTable, GatherFault>
    ensures { Gives IsGatherFault result (limited names.keys) }
{
    if names.len() >= LIMIT {
        return Err(GatherFault::Names);
    }
    Ok(NameTable { names })
}

impl NameTable {
    /// No names, without taking memory.
    pub fn new(alloc: Global) -> NameTable
        ensures { result ≡ [] }
    {
        NameTable {
            names: IndexSet::new(alloc),
        }
    }

    /// With further names: those that aren't there come behind, in the order in which they come first. `Names` exactly where
    /// there are 2^24 names or more then.
    pub fn with_names(self, more: &[Bytes]) -> Result<NameTable, GatherFault>
        ensures { Gives IsGatherFault result (limited (added self more.now)) }
    {
        table_of(add_names(self.names, more)?)
    }

    /// With the names of the external symbols of files, file by file, and the numbers of the names of all their symbols. Each
    /// name is hashed once where it stands; what isn't external has the number `NO_NUMBER`. `Names` exactly where there are
    /// 2^24 names or more then.
    #[tactic(auto, using(crate::proofs::Staying::given))]
    pub fn with_files(self, alloc: Global, files: &[LoadedFile]) -> Result<Numbered, GatherFault>
        ensures names { IfOk result (λ all. limited (added self (external_names files.now)) ≡ Ok all.names) }
        ensures numbers { IfOk result (λ all. all.numbers ≡ numbers_of all.names files.now) }
        ensures fault { IfErr result (λ fault. IsGatherFault fault → limited (added self (external_names files.now)) ≡ Err fault) }
    {
        let NameTable { mut names } = self;
        let numbers = add_files(alloc, &mut names, files)?;
        let names = table_of(names)?;
        Ok(Numbered { names, numbers })
    }

    /// How many names there are.
    pub fn len(&self) -> u32
        ensures value { result ≡ length self.now }
        ensures numbering { IsNumbering self.now }
    {
        self.names.len() as u32
    }

    /// The number of a name, or `None` exactly where it isn't there. Takes no memory.
    pub fn id_of(&self, name: &[u8]) -> Option<u32>
        ensures { result ≡ position (bytes_eq name.now) self.now }
    {
        match self.names.get_index_of(&Name::new(name)) {
            Some(at) => Some(at as u32),
            None => None,
        }
    }

    /// The number of an external symbol's name, where the table gave it this one: itself, or `None` exactly where the name
    /// isn't there.
    #[tactic(auto, using(crate::proofs::Numbers::numbers))]
    pub fn id_of_number(&self, number: u32) -> Option<u32>
        ensures value { result ≡ (if nat_lt number (length self.now) then Some number else None) }
        ensures meaning { (symbol : Symbol) → symbol.external ≡ true → number ≡ number_of self.now symbol → result ≡ position (bytes_eq symbol.name) self.now }
    {
        if number < self.len() {
            Some(number)
        } else {
            None
        }
    }

    /// The name of a number.
    pub fn name_of(&self, id: u32) -> &[u8]
        requires { id < length self.now }
        ensures { slice_get self.now id ≡ Some result.now }
    {
        match self.names.get_index(id as usize) {
            Some(name) => name.bytes(),
            None => b"".as_slice(),
        }
    }
}
