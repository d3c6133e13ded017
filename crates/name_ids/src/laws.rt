//! What the numbers of names mean, each on a call that does nothing.
ghost use Rattle.std.specs.Prelude.{◌≡◌, ◌↔◌, ◌≢◌, ◌++◌, [], Ok, ℕ, List, Contains, position, slice_get, Some};
ghost use Rattle.std.specs.List.{AllPairs};
ghost use Rattle.std.specs.Str.{bytes_eq};
ghost use Rattle.mo_types.specs.declared.loaded.LoadedFile.{LoadedFile};
ghost use Rattle.name_ids.specs.Names.{AreAsMany, AreNames, added, external_names, gathered, limited, numbered, numbers_of};

/// Each name of a list has a number, and nothing else has.
#[tactic(auto, using(crate::proofs::Once::numbers))]
pub fn each_name_has_a_number()
    ensures all { (names : List (List ℕ)) (name : List ℕ) → Contains names name → Contains (numbered names) name }
    ensures only { (names : List (List ℕ)) (name : List ℕ) → Contains (numbered names) name → Contains names name }
{}

/// No two numbers are of one name: the number of a number's name is that number.
#[tactic(auto, using(crate::proofs::Once::numbers))]
pub fn numbers_lead_back()
    ensures once { (names : List (List ℕ)) → AllPairs (λ a b. a ≢ b) (numbered names) }
    ensures back { (names : List (List ℕ)) (id : ℕ) (name : List ℕ) → slice_get (numbered names) id ≡ Some name
        → position (bytes_eq name) (numbered names) ≡ Some id }
{}

/// Names grow by those of further files, and by further ones: what is there then are the names of all.
#[tactic(auto, using(crate::proofs::Any::none_are_names))]
pub fn names_grow()
    ensures none { AreNames [] [] [] }
    ensures files { (files more : List LoadedFile) (extra names all : List (List ℕ)) → AreNames files extra names
        → limited (added names (external_names more)) ≡ Ok all → AreNames (files ++ more) extra all }
    ensures extra { (files : List LoadedFile) (extra more names all : List (List ℕ)) → AreNames files extra names
        → limited (added names more) ≡ Ok all → AreNames files (extra ++ more) all }
    ensures gathered { (files : List LoadedFile) (extra names : List (List ℕ)) → gathered files extra ≡ Ok names → AreNames files extra names }
{}

/// The numbers of files' symbols stay the same while names are added.
pub fn numbers_stay()
    ensures { (files : List LoadedFile) (extra more names all : List (List ℕ)) → AreNames files extra names
        → limited (added names more) ≡ Ok all → numbers_of all files ≡ numbers_of names files }
{}

/// Names are as many in whatever order they are numbered.
#[tactic(auto, using(crate::proofs::Any::as_many))]
pub fn order_is_nothing()
    ensures { (files : List LoadedFile) (extra names : List (List ℕ)) → AreNames files extra names → AreAsMany files extra names }
{}
