ghost use Rattle.std.specs.Prelude.{◌≡◌, [], ◌∷◌, ◌++◌, if◌then◌else◌, nat_eq, not, IfOk};
ghost use Rattle.std.specs.List.{list_any};

use indexmap::IndexSet;
use mo_types::OutOfMemory;
use std::alloc::Global;
use std::marker::Model;

/// Numbers, each once, which contracts see as the list of them.
#[derive(Drop)]
pub struct NumberSet {
    numbers: IndexSet<usize>,
}

impl Model for NumberSet {
    ghost use Rattle.std.specs.Prelude.{List, ℕ};

    ghost Value = { List ℕ };

    ghost view = { λ set. set.numbers.keys };
}

impl NumberSet {
    /// No numbers, which take no memory.
    pub fn new(alloc: Global) -> NumberSet
        ensures { result ≡ [] }
    {
        NumberSet {
            numbers: IndexSet::new(alloc),
        }
    }

    /// Adds a number, unless it is there, and says whether it was added.
    pub fn insert(&mut self, number: usize) -> Result<bool, OutOfMemory>
        ensures added { IfOk result (λ added. added ≡ not (list_any (nat_eq number) self.old)) }
        ensures numbers { IfOk result (λ added. self.new ≡ (if added then self.old ++ number ∷ [] else self.old)) }
    {
        Ok(self.numbers.insert(number)?)
    }
}
